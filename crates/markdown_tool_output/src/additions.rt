//! What is added to the events of a file.
ghost use Rattle.std.specs.Prelude.{◌≡◌};
ghost use Rattle.markdown_additions.specs.Additions.{additions_view};
ghost use Rattle.markdown_tool_output.specs.Outputs.{contents_additions, line_additions};

use markdown_additions::{Additions, Ids};
use markdown_tool_command::extensions::Enabled;

/// Returns what is added to the events of a file that becomes lines, and to those of the only file that becomes HTML.
pub(crate) fn line_additions<'p>(enabled: Enabled) -> Additions<'p>
    ensures { additions_view result ≡ line_additions enabled }
{
    let autolinks = enabled.autolinks;
    let ids = if enabled.heading_ids {
        Ids::All
    } else {
        Ids::Own
    };
    Additions { autolinks, ids }
}

/// Returns what is added to the events of a file whose headings are listed.
pub(crate) fn contents_additions<'p>(enabled: Enabled) -> Additions<'p>
    ensures { additions_view result ≡ contents_additions enabled }
{
    Additions {
        autolinks: enabled.autolinks,
        ids: Ids::All,
    }
}
