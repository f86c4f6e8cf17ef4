//! The smallest program over the library: Markdown on standard input, safe HTML on standard output.
#![tactic(auto)]

use markdown::Options;
use markdown::safe::to_safe_html;
use std::io::Read;
use std::process::ExitCode;

fn main(rt: HostRuntime) -> ExitCode {
    let mut text = String::new(rt.alloc());
    if rt.stdin().read_to_string(&mut text).is_err() {
        return ExitCode::from(1);
    }
    let options = Options::ENABLE_TABLES.union(Options::ENABLE_STRIKETHROUGH);
    match to_safe_html(rt.alloc(), text.as_str(), options) {
        Ok(html) => {
            let _ = rt.print(html.as_str());
            ExitCode::from(0)
        }
        Err(_) => ExitCode::from(1),
    }
}
