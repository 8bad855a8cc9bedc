ghost use Rattle.std.specs.Prelude.{◌≡◌, ◌<◌, ◌++◌, replicate, IfOk, OnOk, Some, None};
ghost use Rattle.ac_syntax.specs.Parts.{says, keywords, marks, names, counts, writes, lacks};
ghost use Rattle.ac_syntax.specs.Canonical.{with_last_line_feed};
ghost use Rattle.ac_printer.specs.Page.{blank_page, put_space, put_bytes, put_part, begin_item};

use crate::literal::append_literal;
use crate::mark::{follows_closely, leads_closely, mark_text};
use ac_base::{NoMemory, Value};
use ac_syntax::{Ident, Keyword, Mark};
use itoa::Buffer;
use std::alloc::{AllocError, Global};
use std::marker::Model;

#[tactic(auto, using(crate::proofs::LineFeeds::replicate_push))]
fn append_line_feeds(text: &mut Vec<u8>, count: u64) -> Result<(), AllocError>
    ensures { OnOk result (text.new.items ≡ text.old.items ++ replicate count 10) }
{
    for _ in 0..count {
        text.push(b'\n')?;
    }
    Ok(())
}

/// A canonical text while it is written.
#[derive(Drop)]
pub struct Page {
    text: Vec<u8>,
    /// The line that is reached.
    line: u64,
    /// No item is begun.
    is_empty: bool,
    /// The next part goes without a space before it.
    is_joined: bool,
}

impl Model for Page {
    ghost use Rattle.ac_printer.specs.Page.{Page};

    ghost Value = { Page };

    ghost view = { λ p. record { text = p.text.items; line = p.line; is_empty = p.is_empty; is_joined = p.is_joined } };
}

impl Page {
    pub fn new(alloc: Global) -> Page
        ensures { result ≡ blank_page }
    {
        Page {
            text: Vec::new(alloc),
            line: 1,
            is_empty: true,
            is_joined: true,
        }
    }

    /// Writes the space before a part, unless one of the two parts goes without.
    #[tactic(auto, unfolding(crate::specs::Page::put_space))]
    fn space(&mut self, follows_closely: bool, leads_closely: bool) -> Result<(), NoMemory>
        ensures { OnOk result (self.new ≡ put_space self.old follows_closely leads_closely) }
    {
        if !(self.is_joined || follows_closely) {
            self.text.push(b' ')?;
        }
        self.is_joined = leads_closely;
        Ok(())
    }

    #[tactic(auto, unfolding(crate::specs::Page::put_bytes))]
    fn bytes(&mut self, bytes: &[u8]) -> Result<(), NoMemory>
        ensures { OnOk result (self.new ≡ put_bytes self.old bytes.now) }
    {
        Ok(self.text.extend_from_slice(bytes)?)
    }

    /// Writes a reserved word.
    #[tactic(auto, unfolding(crate::specs::Page::put_part))]
    pub fn word(&mut self, word: &str) -> Result<(), NoMemory>
        ensures { OnOk result (self.new ≡ put_part self.old (says word.now)) }
    {
        self.space(false, false)?;
        self.bytes(word.as_bytes())
    }

    #[tactic(auto, unfolding(crate::specs::Page::put_part))]
    pub fn keyword(&mut self, own: Keyword) -> Result<(), NoMemory>
        ensures { OnOk result (self.new ≡ put_part self.old (keywords own)) }
    {
        self.space(false, false)?;
        self.bytes(own.text().as_bytes())
    }

    #[tactic(auto, unfolding(crate::specs::Page::put_part))]
    pub fn name(&mut self, name: &Ident) -> Result<(), NoMemory>
        ensures { OnOk result (self.new ≡ put_part self.old (names name.now)) }
    {
        self.space(false, false)?;
        self.bytes(name.bytes())
    }

    #[tactic(auto, unfolding(crate::specs::Page::put_part))]
    pub fn number(&mut self, number: u64) -> Result<(), NoMemory>
        ensures { OnOk result (self.new ≡ put_part self.old (counts number)) }
    {
        self.space(false, false)?;
        self.bytes(Buffer::new().format(number).as_bytes())
    }

    /// Writes what has no bytes.
    #[tactic(auto, unfolding(crate::specs::Page::put_part))]
    pub fn empty_part(&mut self) -> Result<(), NoMemory>
        ensures { OnOk result (self.new ≡ put_part self.old lacks) }
    {
        self.space(false, false)?;
        self.bytes(b"")
    }

    #[tactic(auto, unfolding(crate::specs::Page::put_part, crate::specs::Page::put_bytes))]
    pub fn literal(&mut self, literal: &Value) -> Result<(), NoMemory>
        ensures { OnOk result (self.new ≡ put_part self.old (writes literal.now)) }
    {
        self.space(false, false)?;
        Ok(append_literal(&mut self.text, literal)?)
    }

    #[tactic(auto, unfolding(crate::specs::Page::put_part))]
    pub fn mark(&mut self, mark: Mark) -> Result<(), NoMemory>
        ensures { OnOk result (self.new ≡ put_part self.old (marks mark)) }
    {
        self.space(follows_closely(mark), leads_closely(mark))?;
        self.bytes(mark_text(mark).as_bytes())
    }

    /// Begins an item on the line that is reached.
    #[tactic(auto, unfolding(crate::specs::Page::begin_item))]
    pub fn begin_here(&mut self) -> Result<(), NoMemory>
        ensures { OnOk result (self.new ≡ begin_item self.old None) }
    {
        if !self.is_empty {
            self.text.push(b' ')?;
        }
        self.is_empty = false;
        self.is_joined = true;
        Ok(())
    }

    #[tactic(auto, unfolding(crate::specs::Page::begin_item))]
    fn begin_below(&mut self, line: u64) -> Result<(), NoMemory>
        requires { self.old.line < line }
        ensures { OnOk result (self.new ≡ begin_item self.old (Some line)) }
    {
        append_line_feeds(&mut self.text, line - self.line)?;
        self.line = line;
        self.is_empty = false;
        self.is_joined = true;
        Ok(())
    }

    /// Begins an item on its own line, or on the one that is reached where that is further down.
    #[tactic(auto, unfolding(crate::specs::Page::begin_item))]
    pub fn begin_on(&mut self, line: u64) -> Result<(), NoMemory>
        ensures { OnOk result (self.new ≡ begin_item self.old (Some line)) }
    {
        if self.line < line {
            self.begin_below(line)
        } else {
            self.begin_here()
        }
    }

    /// The text, with its last LF.
    pub fn finish(self) -> Result<Vec<u8>, NoMemory>
        ensures { IfOk result (λ text. text.items ≡ with_last_line_feed self.text) }
    {
        let mut text = self.text;
        if !text.is_empty() {
            text.push(b'\n')?;
        }
        Ok(text)
    }
}
