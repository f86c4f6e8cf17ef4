//! Laws of the definitions that this crate's contracts cite. Each is a function without code, whose clauses state the
//! law.
ghost use Rattle.std.specs.Prelude.{◌≡◌, ◌++◌, ℕ, List};
ghost use Rattle.markdown_base.specs.Event.{EventView};
ghost use Rattle.markdown_base.specs.Source.{Source};
ghost use Rattle.markdown_base.specs.declared.fault.Fault.{Fault};
ghost use Rattle.markdown_base.specs.declared.fault.Fault.TheVariants.{Memory};
ghost use Rattle.markdown_inline.specs.NextGives.{NextGives, IsEventOf};
ghost use Rattle.markdown_inline.specs.ParserLeft.{ReadsText, parser_callback};
ghost use Rattle.markdown_out.specs.HtmlCorrect.{GoesTooDeep, IsRendered, StopsAtError};
ghost use Rattle.markdown_out.specs.LookBacks.{IsTooDeep};
ghost use Rattle.markdown_render.specs.ParserHtml.{IsHtmlOfAll, IsHtmlOfFirst};
ghost use Rattle.markdown_render.specs.RenderingFor.{IsHtmlFor};

use markdown_defs::BrokenLinkCallback;
use markdown_inline::walk::Parser;

/// States what `push_html` writes for a parser: the HTML of all events that were left, which is the HTML of a text
/// where all of its reading was left. At an error item, which is `Memory`, it is the open HTML of
/// the first of these events; likewise where too many Starts are open in an image among them.
pub fn html_of_a_parser_is_that_of_its_reading<'input, F: BrokenLinkCallback<'input>>(
    parser: &Parser<'input, F>,
)
    ensures document { (s : Source) (old new : List ℕ) → ReadsText s parser.now
        → IsRendered (NextGives F.answers IsEventOf) parser.now old new
        → (html : List ℕ) × (new ≡ old ++ html)
        × IsHtmlFor F.answers (parser_callback parser.now) s html }
    ensures rest { (old new : List ℕ)
        → IsRendered (NextGives F.answers IsEventOf) parser.now old new
        → IsHtmlOfAll F.answers parser.now old new }
    ensures error { (old new : List ℕ) (fault : Fault)
        → StopsAtError (NextGives F.answers IsEventOf) parser.now old new fault
        → (fault ≡ Memory) × (events : List EventView)
        × IsHtmlOfFirst F.answers parser.now old new events }
    ensures deep { (old new : List ℕ)
        → GoesTooDeep (NextGives F.answers IsEventOf) parser.now old new
        → (events : List EventView) × IsHtmlOfFirst F.answers parser.now old new events
        × IsTooDeep events }
{}
