//! The comments of a pad, and what a revision shows of them.
ghost use Rattle.std.specs.Prelude.{◌≡◌, ◌≤◌, ◌<◌, [], false, true, nat_lt, if◌then◌else◌, length, OnOk, IfOk, IfErr, MatchResult, None};
ghost use Rattle.pad_model.specs.declared.limits.TheConstants.{MAX_COMMENTS};
ghost use Rattle.comments.specs.Comments.{IsBook, is_comment, comment_of, earlier, refusal_of, with_comment, with_resolution, born_by, range_of, comments_at, AreHeld};

use crate::comment::{Comment, NewComment};
use crate::find::{find, place_of};
use crate::show::{Range, Shown, list, range_between};
use pad_model::{Author, Items, MAX_COMMENTS, Name, OpName, Refusal, Sequence};
use std::alloc::Global;
use std::marker::Model;

/// The comments of a pad, in ascending order of name.
#[derive(Debug, Drop)]
pub struct CommentBook {
    comments: Vec<Comment>,
}

impl Model for CommentBook {
    ghost use Rattle.std.specs.Prelude.{List};
    ghost use Rattle.comments.specs.declared.comment.Comment.{Comment};

    ghost Value = { List Comment };

    ghost use Rattle.comments.specs.Comments.{IsBook};

    ghost view = { λ b. b.comments.items };

    ghost invariant = { λ b. IsBook b.comments.items };
}

impl CommentBook {
    /// A book without comments. It allocates no memory.
    pub fn new(alloc: Global) -> CommentBook
        ensures { result ≡ [] }
    {
        CommentBook {
            comments: Vec::new(alloc),
        }
    }

    /// The number of comments.
    pub fn len(&self) -> u64
        ensures value { result ≡ length self.now }
        ensures book { IsBook self.now }
    {
        self.comments.len() as u64
    }

    /// Returns true if there is a comment with this name.
    pub fn has(&self, name: OpName) -> bool
        ensures { result ≡ is_comment name self.now }
    {
        find(self.comments.as_slice(), name).is_some()
    }

    /// Adds an unresolved comment. Its name must be new.
    pub fn add(&mut self, alloc: Global, given: NewComment<'_>) -> Result<(), Refusal>
        requires { is_comment given.name self.old ≡ false }
        ensures room { OnOk result (length self.old < MAX_COMMENTS) }
        ensures ok { OnOk result (self.new
            ≡ with_comment (record {
              name = given.entry.name;
              first = given.entry.first;
              last = given.entry.last;
              author = given.entry.author.now;
              text = given.entry.text.now;
              born = given.entry.rev;
              resolved = None;
            }) self.old) }
        ensures err { IfErr result (λ e. (e ≡ refusal_of self.old) × (self.new ≡ self.old)) }
    {
        if self.len() >= MAX_COMMENTS {
            return Err(Refusal::CommentsFull);
        }
        let NewComment {
            name,
            first,
            last,
            author,
            text,
            rev,
        } = given;
        let author = Author {
            name: Name::from_str(alloc, author.name.as_str())?,
            origin: author.origin,
        };
        let comment = Comment {
            name,
            first,
            last,
            author,
            text: text.clone()?,
            born: rev,
            resolved: None,
        };
        let place = place_of(self.comments.as_slice(), name);
        self.comments.insert(place, comment)?;
        Ok(())
    }

    /// Resolves a comment from a revision on. A resolution at a later revision changes nothing.
    pub fn resolve(&mut self, name: OpName, rev: u64) -> Result<(), Refusal>
        ensures ok { OnOk result ((is_comment name self.old ≡ true)
            × (self.new ≡ with_resolution name rev self.old)) }
        ensures err { IfErr result (λ e. (e ≡ Refusal.NoComment)
            × (is_comment name self.old ≡ false) × (self.new ≡ self.old)) }
    {
        let Some(place) = find(self.comments.as_slice(), name) else {
            return Err(Refusal::NoComment);
        };
        let comment = &mut self.comments[place];
        comment.resolved = Some(earlier(comment.resolved, rev));
        Ok(())
    }

    /// The range of a comment at a revision; None if there is no such comment, or one of its stamps is missing.
    pub fn range<S: Sequence>(&self, sequence: &S, name: OpName, rev: u64) -> Option<Range>
        ensures { result ≡ range_of rev (S.cells sequence.now) (comment_of name self.now) }
    {
        let place = find(self.comments.as_slice(), name)?;
        let comment = &self.comments[place];
        range_between(sequence, comment.first, comment.last, rev)
    }

    /// The comments of a revision, in ascending order of name.
    pub fn list_at<S: Sequence>(
        &self,
        alloc: Global,
        sequence: &S,
        rev: u64,
    ) -> Result<Items<Shown>, Refusal>
        requires { AreHeld (S.cells sequence.now) (born_by rev self.now) }
        ensures { MatchResult result (λ rows. rows
            ≡ comments_at rev (S.cells sequence.now) self.now) (λ e. e ≡ Refusal.Memory) }
    {
        let rows = list(alloc, self.comments.as_slice(), sequence, rev)?;
        Ok(Items::from_vec(rows))
    }
}

/// The revision that resolves a comment after one more resolution: the earlier one.
fn earlier(before: Option<u64>, rev: u64) -> u64
    ensures { result ≡ earlier before rev }
{
    match before {
        Some(before) => before.min(rev),
        None => rev,
    }
}
