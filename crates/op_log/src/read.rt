//! Operations are read back. A number past the end is 0, and a value out of its limits becomes the nearest one, so
//! that all bytes say something and reading fails only out of memory.
ghost use Rattle.std.specs.Prelude.{◌≡◌, min, [], slice_index_or, IfOk, IfErr, OnOk};
ghost use Rattle.pad_model.specs.declared.refusal.Refusal.{Refusal};
ghost use Rattle.op_log.specs.Number.{number_at, after_number};
ghost use Rattle.op_log.specs.Read.{read_stamp, read_parent, character_of, read_text, read_span, read_spans, read_counted, read_seen, read_insert, read_comment, read_part, read_parts, read_op};
ghost use Rattle.op_log.specs.Read as read;

use crate::number::next_number;
use pad_model::{
    Counted, Items, MAX_COUNTER, MAX_PARTS, MAX_TEXT, Name, Op, OpName, Part, Refusal, Run, Seen,
    Span, Stamp, Text,
};
use std::alloc::{AllocError, Global};
use std::marker::Model;

/// The name of the operation that begins the bytes. It needs no memory.
pub fn read_name(bytes: &[u8]) -> OpName
    ensures { result ≡ (read.read_name bytes.now).value }
{
    OpReader::new(bytes).name()
}

/// The operation that the bytes are, with a table of its authors' names.
pub fn unpack(alloc: Global, authors: &[Name], bytes: &[u8]) -> Result<Op, Refusal>
    ensures ok { IfOk result (λ op. op ≡ read_op authors.now bytes.now) }
    ensures memory { IfErr result (λ e. e ≡ Refusal.Memory) }
{
    let mut reader = OpReader::new(bytes);
    let name = reader.name();
    let seen = reader.seen(alloc)?;
    let author = author_at(alloc, authors, reader.number())?;
    let parts = reader.parts(alloc)?;
    Ok(Op {
        name,
        seen,
        author,
        parts,
    })
}

/// The name at a place of the table; an empty one where there is none.
fn author_at(alloc: Global, authors: &[Name], place: u64) -> Result<Name, AllocError>
    ensures { IfOk result (λ name. name ≡ slice_index_or authors.now place []) }
{
    match authors.get(place as usize) {
        Some(name) => name.clone(),
        None => Name::from_str(alloc, ""),
    }
}

/// Bytes that are read from the front.
#[derive(Drop)]
struct OpReader<'a> {
    rest: &'a [u8],
}

impl<'a> Model for OpReader<'a> {
    ghost use Rattle.std.specs.Prelude.{ℕ, List};

    ghost Value = { List ℕ };

    ghost view = { λ r. r.rest.now };
}

impl<'a> OpReader<'a> {
    fn new(bytes: &'a [u8]) -> OpReader<'a>
        ensures { result ≡ bytes.now }
    {
        OpReader { rest: bytes }
    }

    fn number(&mut self) -> u64
        ensures value { result ≡ number_at self.old }
        ensures rest { self.new ≡ after_number self.old }
    {
        let (number, rest) = next_number(self.rest);
        self.rest = rest;
        number
    }

    fn origin(&mut self) -> u16
        ensures value { result ≡ min (number_at self.old) 65535 }
        ensures rest { self.new ≡ after_number self.old }
    {
        self.number().min(65535) as u16
    }

    fn name(&mut self) -> OpName
        ensures value { result ≡ (read.read_name self.old).value }
        ensures rest { self.new ≡ (read.read_name self.old).rest }
    {
        let origin = self.origin();
        let number = self.number();
        OpName { origin, number }
    }

    fn stamp(&mut self) -> Stamp
        ensures value { result ≡ (read_stamp self.old).value }
        ensures rest { self.new ≡ (read_stamp self.old).rest }
    {
        let counter = self.number().min(MAX_COUNTER).max(1);
        let replica = self.origin().max(1);
        match Stamp::new(counter, replica) {
            Ok(stamp) => stamp,
            Err(_) => unreachable!(),
        }
    }

    fn parent(&mut self) -> Option<Stamp>
        ensures value { result ≡ (read_parent self.old).value }
        ensures rest { self.new ≡ (read_parent self.old).rest }
    {
        if self.number() == 0 {
            return None;
        }
        Some(self.stamp())
    }

    fn character(&mut self) -> char
        ensures value { result ≡ character_of (number_at self.old) }
        ensures rest { self.new ≡ after_number self.old }
    {
        let code = self.number().min(u32::MAX as u64) as u32;
        char::from_u32(code).unwrap_or('\0')
    }

    fn text(&mut self, alloc: Global) -> Result<Text, AllocError>
        ensures value { IfOk result (λ text. text ≡ (read_text self.old).value) }
        ensures rest { OnOk result (self.new ≡ (read_text self.old).rest) }
    {
        let count = self.number();
        let mut text = Vec::with_capacity(alloc, count.min(MAX_TEXT) as usize)?;
        for _n in 0..count {
            text.push(self.character())?;
        }
        Ok(Text::from_vec(text))
    }

    fn span(&mut self) -> Span
        ensures value { result ≡ (read_span self.old).value }
        ensures rest { self.new ≡ (read_span self.old).rest }
    {
        let first = self.stamp();
        let len = self.number();
        Span { first, len }
    }

    fn spans(&mut self, alloc: Global) -> Result<Items<Span>, AllocError>
        ensures value { IfOk result (λ spans. spans ≡ (read_spans self.old).value) }
        ensures rest { OnOk result (self.new ≡ (read_spans self.old).rest) }
    {
        let count = self.number();
        let mut spans = Vec::with_capacity(alloc, count.min(MAX_TEXT) as usize)?;
        for _n in 0..count {
            spans.push(self.span())?;
        }
        Ok(Items::from_vec(spans))
    }

    fn counted(&mut self) -> Counted
        ensures value { result ≡ (read_counted self.old).value }
        ensures rest { self.new ≡ (read_counted self.old).rest }
    {
        let origin = self.origin();
        let count = self.number();
        Counted { origin, count }
    }

    fn seen(&mut self, alloc: Global) -> Result<Seen, Refusal>
        ensures value { IfOk result (λ seen. seen ≡ (read_seen self.old).value) }
        ensures rest { OnOk result (self.new ≡ (read_seen self.old).rest) }
        ensures memory { IfErr result (λ e. e ≡ Refusal.Memory) }
    {
        let count = self.number();
        let mut seen = Seen::new(alloc);
        for _n in 0..count {
            let pair = self.counted();
            seen.set(pair.origin, pair.count)?;
        }
        Ok(seen)
    }

    fn insertion(&mut self, alloc: Global) -> Result<Part, AllocError>
        ensures value { IfOk result (λ part. part ≡ (read_insert self.old).value) }
        ensures rest { OnOk result (self.new ≡ (read_insert self.old).rest) }
    {
        let first = self.stamp();
        let after = self.parent();
        let text = self.text(alloc)?;
        Ok(Part::Insert(Run { first, after, text }))
    }

    fn comment(&mut self, alloc: Global) -> Result<Part, AllocError>
        ensures value { IfOk result (λ part. part ≡ (read_comment self.old).value) }
        ensures rest { OnOk result (self.new ≡ (read_comment self.old).rest) }
    {
        let first = self.stamp();
        let last = self.stamp();
        let text = self.text(alloc)?;
        Ok(Part::Comment { first, last, text })
    }

    fn part(&mut self, alloc: Global) -> Result<Part, AllocError>
        ensures value { IfOk result (λ part. part ≡ (read_part self.old).value) }
        ensures rest { OnOk result (self.new ≡ (read_part self.old).rest) }
    {
        let kind = self.number();
        if kind == 0 {
            return self.insertion(alloc);
        }
        if kind == 1 {
            return Ok(Part::Delete(self.spans(alloc)?));
        }
        if kind == 2 {
            return self.comment(alloc);
        }
        Ok(Part::Resolve {
            comment: self.name(),
        })
    }

    fn parts(&mut self, alloc: Global) -> Result<Items<Part>, AllocError>
        ensures value { IfOk result (λ parts. parts ≡ (read_parts self.old).value) }
        ensures rest { OnOk result (self.new ≡ (read_parts self.old).rest) }
    {
        let count = self.number();
        let mut parts = Vec::with_capacity(alloc, count.min(MAX_PARTS) as usize)?;
        for _n in 0..count {
            parts.push(self.part(alloc)?)?;
        }
        Ok(Items::from_vec(parts))
    }
}
