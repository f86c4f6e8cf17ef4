//! The default style of a page.
ghost use Rattle.std.specs.Prelude.{◌≡◌};
ghost use Rattle.markdown_page.specs.PageStyle.{default_style};

/// The default style: light or dark as the reader's settings are, a line of 46 rem, wide tables and code that scroll, names
/// before alerts, footnotes beside their number, and rules for print.
const DEFAULT_STYLE: &str = "\
    :root { color-scheme: light dark; --ink: #1f2328; --soft: #59636e; --line: #d1d9e0; --tint: \
    #f6f8fa; --link: #0969da; --note: #0969da; --tip: #1a7f37; --important: #8250df; --warning: \
    #9a6700; --caution: #cf222e; }\n\
    @media (prefers-color-scheme: dark) { :root { --ink: #f0f6fc; --soft: #9198a1; --line: \
    #3d444d; --tint: #151b23; --link: #4493f8; --note: #4493f8; --tip: #3fb950; --important: \
    #ab7df8; --warning: #d29922; --caution: #f85149; } }\n\
    html { background: Canvas; color: var(--ink); -webkit-text-size-adjust: 100%; \
    text-size-adjust: 100%; }\n\
    body { margin: 0; font: 1rem/1.55 system-ui, sans-serif; }\n\
    main, nav { max-width: 46rem; margin: 2rem auto; padding: 0 1rem; overflow-wrap: \
    break-word; }\n\
    h1, h2, h3, h4, h5, h6 { line-height: 1.25; margin: 1.5em 0 .6em; }\n\
    h1, h2 { border-bottom: 1px solid var(--line); padding-bottom: .3em; }\n\
    a { color: var(--link); }\n\
    img, video { max-width: 100%; height: auto; }\n\
    pre, code, .math { font: .875em/1.45 ui-monospace, monospace; }\n\
    pre, code { background: var(--tint); border-radius: 6px; }\n\
    code { padding: .2em .4em; }\n\
    pre { padding: 1em; overflow: auto; }\n\
    pre code { padding: 0; font-size: 1em; }\n\
    table { border-collapse: collapse; margin: 1em 0; display: block; max-width: 100%; width: \
    max-content; overflow: auto; }\n\
    th, td { border: 1px solid var(--line); padding: .35em .8em; }\n\
    tbody tr:nth-child(even) { background: var(--tint); }\n\
    hr { border: 0; border-top: 1px solid var(--line); margin: 2em 0; }\n\
    blockquote { margin: 1em 0; padding: .1em 1em; border-left: .25em solid var(--line); color: \
    var(--soft); }\n\
    blockquote[class^=\"markdown-alert\"] { color: inherit; border-color: var(--kind); }\n\
    blockquote[class^=\"markdown-alert\"]::before { display: block; margin-top: .5em; \
    font-weight: 600; color: var(--kind); content: var(--name); }\n\
    .markdown-alert-note { --kind: var(--note); --name: \"Note\"; }\n\
    .markdown-alert-tip { --kind: var(--tip); --name: \"Tip\"; }\n\
    .markdown-alert-important { --kind: var(--important); --name: \"Important\"; }\n\
    .markdown-alert-warning { --kind: var(--warning); --name: \"Warning\"; }\n\
    .markdown-alert-caution { --kind: var(--caution); --name: \"Caution\"; }\n\
    li:has(> input[type=\"checkbox\"]), li:has(> p > input[type=\"checkbox\"]) { list-style: \
    none; }\n\
    li > input[type=\"checkbox\"], li > p > input[type=\"checkbox\"] { margin: 0 .4em 0 -1.4em; \
    }\n\
    dt { font-weight: 600; }\n\
    .footnote-definition { position: relative; margin: .5em 0; padding-left: 1.8em; font-size: \
    .875em; color: var(--soft); }\n\
    .footnote-definition-label { position: absolute; left: 0; }\n\
    .footnote-definition p { margin: 0 0 .5em; }\n\
    .math-display { display: block; overflow: auto; text-align: center; margin: 1em 0; }\n\
    nav { border-bottom: 1px solid var(--line); padding-bottom: 1rem; }\n\
    nav ul { list-style: none; padding-left: 1.2em; margin: 0; }\n\
    nav > ul { padding-left: 0; }\n\
    :target { scroll-margin-top: 1rem; }\n\
    @media print { :root { color-scheme: light; --ink: #000; --soft: #333; --line: #999; \
    --tint: #f4f4f4; --link: #000; } main, nav { max-width: none; margin: 0; padding: 0; } pre, \
    table { overflow: visible; } pre, code { white-space: pre-wrap; overflow-wrap: anywhere; } \
    table { display: table; width: auto; font-size: .85em; } h1, h2, h3, h4, h5, h6 { \
    break-after: avoid; } pre, blockquote, tr, img { break-inside: avoid; } nav { border: 0; } }\n";

/// Returns the default style, of which each line ends with a line feed.
pub fn default_style() -> &'static str
    ensures { result.now ≡ default_style }
{
    DEFAULT_STYLE
}
