//! Raw HTML that ends at its first closing bytes (CommonMark 6.6).
ghost use Rattle.std.specs.Prelude.{◌≡◌, ◌-◌, ◌≤◌, IfSome, codes, length, slice_index};
ghost use Rattle.markdown_raw_html.specs.RawHtml.{cdata_section, comment, declaration, end_from};
ghost use Rattle.markdown_raw_html.specs.RawHtml.{processing_instruction};

use crate::closing::ClosingGuard;
use markdown_scan::ascii_kinds::begins_with_letter;

/// A scanner of the comments, CDATA sections, declarations and processing instructions in a text, which ends where its
/// block ends. For each kind it remembers the offset from which on none ends, so that all failed scans of a text
/// together take linear time; no result depends on that. Each kind ends with `>`.
#[derive(Debug, Drop)]
pub struct RawHtmlScanner<'t> {
    /// The bytes of the text.
    pub text: &'t [u8],
    comments: ClosingGuard<'t>,
    cdata_sections: ClosingGuard<'t>,
    declarations: ClosingGuard<'t>,
    instructions: ClosingGuard<'t>,
    ghost comments_of: { comments.text.now ≡ text.now },
    ghost cdata_sections_of: { cdata_sections.text.now ≡ text.now },
    ghost declarations_of: { declarations.text.now ≡ text.now },
    ghost instructions_of: { instructions.text.now ≡ text.now },
    ghost comments_end: { comments.closing.now ≡ codes "-->" },
    ghost cdata_sections_end: { cdata_sections.closing.now ≡ codes "]]>" },
    ghost declarations_end: { declarations.closing.now ≡ codes ">" },
    ghost instructions_end: { instructions.closing.now ≡ codes "?>" },
}

impl<'t> RawHtmlScanner<'t> {
    /// Returns a scanner of the bytes.
    pub fn new(text: &'t [u8]) -> RawHtmlScanner<'t>
        ensures { result.text.now ≡ text.now }
    {
        RawHtmlScanner {
            text,
            comments: ClosingGuard::new(text, b"-->"),
            cdata_sections: ClosingGuard::new(text, b"]]>"),
            declarations: ClosingGuard::new(text, b">"),
            instructions: ClosingGuard::new(text, b"?>"),
        }
    }

    /// Returns the byte offset after the comment whose `<!` is directly before `start`, if there is one. A comment ends
    /// with the first `-->` after its `<!--`; `<!-->` and `<!--->` are comments too.
    pub fn scan_comment(&mut self, start: usize) -> Option<usize>
        requires { start ≤ length self.old.text.now }
        ensures value { result ≡ end_from comment self.old.text.now start }
        ensures within { IfSome result (λ end. end ≤ length self.old.text.now) }
        ensures closed { IfSome result (λ end. slice_index self.old.text.now (end - 1) ≡ 62) }
        ensures text { self.new.text ≡ self.old.text }
    {
        let rest = &self.text[start..];
        if rest.starts_with(b"-->") {
            Some(start + 3)
        } else if rest.starts_with(b"--->") {
            Some(start + 4)
        } else if rest.starts_with(b"--") {
            self.comments.end(start + 2)
        } else {
            None
        }
    }

    /// Returns the byte offset after the CDATA section whose `<!` is directly before `start`, if there is one. It ends
    /// with the first `]]>` after its `<![CDATA[`.
    pub fn scan_cdata_section(&mut self, start: usize) -> Option<usize>
        requires { start ≤ length self.old.text.now }
        ensures value { result ≡ end_from cdata_section self.old.text.now start }
        ensures within { IfSome result (λ end. end ≤ length self.old.text.now) }
        ensures closed { IfSome result (λ end. slice_index self.old.text.now (end - 1) ≡ 62) }
        ensures text { self.new.text ≡ self.old.text }
    {
        if !self.text[start..].starts_with(b"[CDATA[") {
            return None;
        }
        self.cdata_sections.end(start + 7)
    }

    /// Returns the byte offset after the declaration whose `<!` is directly before `start`, if there is one. After the
    /// `<!` it has an ASCII letter, and then everything through the first `>`.
    pub fn scan_declaration(&mut self, start: usize) -> Option<usize>
        requires { start ≤ length self.old.text.now }
        ensures value { result ≡ end_from declaration self.old.text.now start }
        ensures within { IfSome result (λ end. end ≤ length self.old.text.now) }
        ensures closed { IfSome result (λ end. slice_index self.old.text.now (end - 1) ≡ 62) }
        ensures text { self.new.text ≡ self.old.text }
    {
        if !begins_with_letter(&self.text[start..]) {
            return None;
        }
        self.declarations.end(start + 1)
    }

    /// Returns the byte offset after the processing instruction whose `<?` is directly before `start`, if there is one.
    /// It ends with the first `?>` at `start` or later.
    pub fn scan_processing_instruction(&mut self, start: usize) -> Option<usize>
        requires { start ≤ length self.old.text.now }
        ensures value { result ≡ end_from processing_instruction self.old.text.now start }
        ensures within { IfSome result (λ end. end ≤ length self.old.text.now) }
        ensures closed { IfSome result (λ end. slice_index self.old.text.now (end - 1) ≡ 62) }
        ensures text { self.new.text ≡ self.old.text }
    {
        self.instructions.end(start)
    }
}
