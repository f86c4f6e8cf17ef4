//! The rules of safe HTML and the limit that a command line asks for.
ghost use Rattle.std.specs.Prelude.{◌≡◌, IfErr, IfOk, Some, codes};
ghost use Rattle.clap.specs.Words.{found_of, rows_of};
ghost use Rattle.markdown_safe.specs.SafeRules.{rules_view};
ghost use Rattle.markdown_tool_command.specs.Requests.{AreRulesAsked, IsNestingAsked, IsNoNumber, IsNumberAsked};
ghost use Rattle.markdown_tool_command.specs.Requests.{IsValueRefusal, images_asked, images_named, request_rules};

use crate::request::{Refusal, WrongValue};
use crate::values::{is_given, value_of};
use clap::ArgMatches;
use markdown_safe::{Images, SafeRules};
use std::alloc::Global;

/// The rules of safe HTML, which own their prefix.
#[derive(Debug, Drop)]
pub struct Rules {
    /// What follows `user-content-` in ids.
    pub prefix: String,
    /// What becomes of images.
    pub images: Images,
    /// Whether links to other sites have a `rel`.
    pub rel: bool,
    /// The number of tags that may stand in one another.
    pub nesting: usize,
}

impl Rules {
    /// Returns them as `markdown_safe` takes them.
    pub fn as_safe(&self) -> SafeRules<'_>
        ensures { rules_view result ≡ request_rules self.now }
    {
        SafeRules {
            prefix: self.prefix.as_str(),
            images: self.images,
            rel: self.rel,
            nesting: self.nesting,
        }
    }
}

/// Returns what becomes of images, by its name, or `None` where it has another.
fn images_named(name: &str) -> Option<Images>
    ensures { result ≡ images_named name.now }
{
    Some(match name {
        "shown" => Images::Shown,
        "links" => Images::Links,
        "text" => Images::Text,
        _ => return None,
    })
}

/// Returns the number that an argument asks for, if it is given, or its value where that is no number below 2^64.
fn number_asked<'a>(matches: &ArgMatches<'a>, id: &str) -> Result<Option<usize>, &'a str>
    ensures number { IfOk result (IsNumberAsked id.now (rows_of (found_of matches.now))) }
    ensures none { IfErr result
        (λ text. IsNoNumber id.now (rows_of (found_of matches.now)) text.now) }
{
    let Some(text) = value_of(matches, id) else {
        return Ok(None);
    };
    match usize::from_str_radix(text, 10) {
        Ok(number) => Ok(Some(number)),
        Err(_) => Err(text),
    }
}

/// Returns what becomes of images.
///
/// # Errors
///
/// `WrongValue` where that is none of what they become.
fn images_asked<'a>(matches: &ArgMatches<'a>) -> Result<Images, Refusal<'a>>
    ensures images { IfOk result (λ images.
        images_asked (rows_of (found_of matches.now)) ≡ Some images) }
    ensures refused { IfErr result (IsValueRefusal (rows_of (found_of matches.now))) }
{
    let Some(name) = value_of(matches, "images") else {
        return Ok(Images::Shown);
    };
    match images_named(name) {
        Some(images) => Ok(images),
        None => Err(Refusal::WrongValue(WrongValue::Images(name))),
    }
}

/// Returns how many tags may stand in one another.
///
/// # Errors
///
/// `WrongValue` where that is no number.
fn nesting_asked<'a>(matches: &ArgMatches<'a>) -> Result<usize, Refusal<'a>>
    ensures nesting { IfOk result (IsNestingAsked (rows_of (found_of matches.now))) }
    ensures refused { IfErr result (IsValueRefusal (rows_of (found_of matches.now))) }
{
    match number_asked(matches, "nesting") {
        Ok(Some(nesting)) => Ok(nesting),
        Ok(None) => Ok(SafeRules::new().nesting),
        Err(text) => Err(Refusal::WrongValue(WrongValue::Number(text))),
    }
}

/// Returns the rules of safe HTML that are asked for.
///
/// # Errors
///
/// `Memory` if an allocation fails, and `WrongValue` where images or the nesting have a value that is none of theirs.
pub(crate) fn rules_asked<'a>(alloc: Global, matches: &ArgMatches<'a>) -> Result<Rules, Refusal<'a>>
    ensures rules { IfOk result (λ rules.
        AreRulesAsked (rows_of (found_of matches.now)) (request_rules rules)) }
    ensures refused { IfErr result (IsValueRefusal (rows_of (found_of matches.now))) }
{
    let images = images_asked(matches)?;
    let nesting = nesting_asked(matches)?;
    let prefix = String::from_str(alloc, value_of(matches, "id-prefix").unwrap_or(""))?;
    Ok(Rules {
        prefix,
        images,
        rel: !is_given(matches, "no-rel"),
        nesting,
    })
}

/// Returns how many bytes may be written, where that is limited.
///
/// # Errors
///
/// `WrongValue` where it is no number.
pub(crate) fn limit_asked<'a>(matches: &ArgMatches<'a>) -> Result<Option<usize>, Refusal<'a>>
    ensures limit { IfOk result
        (IsNumberAsked (codes "limit") (rows_of (found_of matches.now))) }
    ensures refused { IfErr result (IsValueRefusal (rows_of (found_of matches.now))) }
{
    match number_asked(matches, "limit") {
        Ok(limit) => Ok(limit),
        Err(text) => Err(Refusal::WrongValue(WrongValue::Number(text))),
    }
}
