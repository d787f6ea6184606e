//! The words for the acts of requests on a pad.
ghost use Rattle.std.specs.Prelude.{◌≡◌};
ghost use Rattle.wire_json.specs.Words.{act_word_of};

/// The act of a request on a pad, by the word in its field `do`.
#[derive(Clone, Copy)]
pub enum ActWord {
    Join,
    Leave,
    Insert,
    Delete,
    Edit,
    Text,
    Runs,
    Comment,
    Resolve,
    Comments,
    Changes,
    Revs,
    Entries,
    Times,
    Birth,
    Caret,
    Who,
    Grant,
    Invite,
    Hand,
    Rights,
    Close,
    Reopen,
    Mark,
    Marks,
    Introduce,
    Guests,
    Vector,
    Push,
    Pull,
}

pub fn act_word_of(word: &str) -> Option<ActWord>
    ensures { result ≡ act_word_of word.now }
{
    match word {
        "join" => Some(ActWord::Join),
        "leave" => Some(ActWord::Leave),
        "insert" => Some(ActWord::Insert),
        "delete" => Some(ActWord::Delete),
        "edit" => Some(ActWord::Edit),
        "text" => Some(ActWord::Text),
        "runs" => Some(ActWord::Runs),
        "comment" => Some(ActWord::Comment),
        "resolve" => Some(ActWord::Resolve),
        "comments" => Some(ActWord::Comments),
        "changes" => Some(ActWord::Changes),
        "revs" => Some(ActWord::Revs),
        "entries" => Some(ActWord::Entries),
        "times" => Some(ActWord::Times),
        "birth" => Some(ActWord::Birth),
        "caret" => Some(ActWord::Caret),
        "who" => Some(ActWord::Who),
        "grant" => Some(ActWord::Grant),
        "invite" => Some(ActWord::Invite),
        "hand" => Some(ActWord::Hand),
        "rights" => Some(ActWord::Rights),
        "close" => Some(ActWord::Close),
        "reopen" => Some(ActWord::Reopen),
        "mark" => Some(ActWord::Mark),
        "marks" => Some(ActWord::Marks),
        "introduce" => Some(ActWord::Introduce),
        "guests" => Some(ActWord::Guests),
        "vector" => Some(ActWord::Vector),
        "push" => Some(ActWord::Push),
        "pull" => Some(ActWord::Pull),
        _ => None,
    }
}
