//! Searches for comments by name.
ghost use Rattle.std.specs.Prelude.{◌≡◌, ◌≤◌, ◌<◌, length, slice_get, IfSome, IfNone, true, false};
ghost use Rattle.std.specs.Option.{IsSomeAnd};
ghost use Rattle.pad_model.specs.Log.{same_name};
ghost use Rattle.comments.specs.Comments.{is_comment, comment_of, IsByName};
ghost use Rattle.comments.specs.Comments as comments_spec;

use crate::comment::Comment;
use pad_model::OpName;

/// The number of comments that come before a name.
pub fn place_of(comments: &[Comment], name: OpName) -> usize
    requires { IsByName comments.now }
    ensures { result ≡ comments_spec.place_of name comments.now }
{
    comments.partition_point(|comment| comment.name.precedes(name))
}

/// The index of the comment with a name, if there is one.
pub fn find(comments: &[Comment], name: OpName) -> Option<usize>
    requires { IsByName comments.now }
    ensures found { IfSome result (λ place. (place < length comments.now)
        × (place ≡ comments_spec.place_of name comments.now)
        × (slice_get comments.now place ≡ comment_of name comments.now)) }
    ensures none { IfNone result (comment_of name comments.now ≡ None) }
{
    let place = place_of(comments, name);
    match comments.get(place) {
        Some(comment) if comment.name == name => Some(place),
        _ => None,
    }
}
