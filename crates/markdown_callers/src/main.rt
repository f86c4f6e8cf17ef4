//! Uses of the library, each run on a page of Markdown.
#![tactic(auto)]

mod comments;
mod contents;
mod hello;
mod link_checker;
mod link_rewriter;
mod linter;
mod site_generator;

use markdown::{Fault, Options};
use std::alloc::Global;
use std::process::ExitCode;

/// The page of the site generator, the link checker and the linter.
const PAGE: &str = "\
# Bread
Flour and water,
*salt* and [yeast](/yeast \"fresh\").

###### See also
<https://bread.example>, [ovens] or ![a loaf](loaf.png).
A <b>sourdough</b> takes longer.

<hr>
";

/// The comment of a stranger.
const COMMENT: &str = "\
Nice <b>loaf</b>, [mine](javascript:steal()) is *flat*.
";

/// The page of the link rewriter.
const LINKS: &str = "\
[Ovens](/ovens), [rye](rye.md \"A loaf\"), [host](//rye.example), ![a loaf](/loaf.png)
and <https://rye.example/>.
";

/// The page of the table of contents.
const CHAPTERS: &str = "\
# Baking
## Bread, with *yeast*
#### Shaping
## Cakes & `[tarts]`
### Shaping
Glaze & fruit
-------------
";

/// Returns the output of each use, one after another.
fn report(alloc: Global, source: &str) -> Result<String, Fault> {
    let mut notes = String::new(alloc);
    let html = hello::hello_page(alloc)?;
    notes.push_str(html.as_str())?;
    let html = site_generator::page_html(alloc, source, Options::empty())?;
    notes.push_str(html.as_str())?;
    let html = comments::comment_html(alloc, COMMENT, Options::empty())?;
    notes.push_str(html.as_str())?;
    let html = link_rewriter::html_at_site(alloc, LINKS, "https://bread.example")?;
    notes.push_str(html.as_str())?;
    let list = contents::contents(alloc, CHAPTERS)?;
    notes.push_str(list.as_str())?;
    let links = link_checker::report(alloc, source)?;
    notes.push_str(links.as_str())?;
    let hits = linter::report(alloc, source)?;
    notes.push_str(hits.as_str())?;
    Ok(notes)
}

fn main(rt: HostRuntime) -> ExitCode {
    match report(rt.alloc(), PAGE) {
        Ok(notes) => {
            let _ = rt.print(notes.as_str());
            ExitCode::from(0)
        }
        Err(_) => {
            let _ = rt.eprintln("out of memory");
            ExitCode::from(1)
        }
    }
}
