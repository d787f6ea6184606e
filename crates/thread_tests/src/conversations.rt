//! Conversations that are cut at each byte, moved to another thread in the middle of a line, or served side by side at
//! the seats of one thread.
ghost use Rattle.std.specs.Prelude.{◌≡◌, [], OnOk};
ghost use Rattle.conversation.specs.Talk.{unwritten};

use crate::stage::accounts;
use block_seq::BlockSeq;
use conversation::{Conversation, LineOutcome, Names, PadTable, Shared, open_row, take_seats};
use pad_model::Refusal;
use presence::DEFAULT_PRESENT;
use sessions::{Accounts, Session};
use shared_pads::{Open, Seat, SharedPad};
use std::alloc::{AllocError, Global};
use std::process::Abort;
use std::sync::Wait;
use std::test::Fail;
use wire_lines::Fault;

const STORY: &str = concat!(
    r#"{"do":"hello","name":"a1","token":"t"}"#,
    "\n",
    r#"{"do":"create","pad":"one"}"#,
    "\r\n\n",
    "no JSON\n",
    r#"{"do":"insert","pad":"one","rev":0,"at":0,"text":"x"}"#,
    "\n",
    r#"{"do":"text","pad":"one"}"#,
    "\n",
);

// The number of bytes of its first two lines, after which there is a pad.
const CREATED: usize = 68;

const REPLIES: &str = concat!(
    r#"{"author":"a1@1","ok":true}"#,
    "\n",
    r#"{"now":0,"ok":true,"visit":1}"#,
    "\n",
    r#"{"code":101,"error":"NotJson","ok":false}"#,
    "\n",
    r#"{"name":[1,1],"now":1,"ok":true}"#,
    "\n",
    r#"{"now":1,"ok":true,"rev":1,"text":"x"}"#,
    "\n",
);

/// A client, with the replies that were written to it.
#[derive(Drop)]
struct TalkingClient {
    session: Session,
    conversation: Conversation,
    written: Vec<u8>,
}

impl TalkingClient {
    fn new(alloc: Global) -> TalkingClient {
        TalkingClient {
            session: Session::new(alloc),
            conversation: Conversation::new(alloc),
            written: Vec::new(alloc),
        }
    }

    // Receives bytes, answers all whole lines and writes the replies.
    fn hear<R: Wait>(
        &mut self,
        alloc: Global,
        pads: &mut Shared<'_, BlockSeq, R, Open>,
        bytes: &[u8],
    ) -> Result<(), Fault> {
        self.conversation.receive(bytes)?;
        for _line in 0..bytes.len() {
            if self.conversation.is_cut() {
                break;
            }
            let turn = pads.answer(alloc, &mut self.session, &mut self.conversation, 1)?;
            write(&mut self.conversation, &mut self.written)?;
            if turn == LineOutcome::Waits {
                break;
            }
        }
        Ok(())
    }

    // Answers the remaining bytes as the last line.
    fn end<R: Wait>(
        &mut self,
        alloc: Global,
        pads: &mut Shared<'_, BlockSeq, R, Open>,
    ) -> Result<bool, Fault> {
        if self.conversation.is_cut() {
            return Ok(false);
        }
        let turn = pads.answer(alloc, &mut self.session, &mut self.conversation, 1)?;
        if turn != LineOutcome::Waits {
            return Ok(false);
        }
        write(&mut self.conversation, &mut self.written)?;
        let told = pads.answer_last(alloc, &mut self.session, &mut self.conversation, 1)?;
        write(&mut self.conversation, &mut self.written)?;
        pads.end_session(&mut self.session);
        Ok(told)
    }
}

// Writes all replies.
fn write(conversation: &mut Conversation, written: &mut Vec<u8>) -> Result<(), AllocError>
    ensures { OnOk result (conversation.new ≡ unwritten conversation.old []) }
{
    let count = conversation.replies().len();
    written.extend_from_slice(conversation.replies())?;
    conversation.sent(count);
    Ok(())
}

/// The pads of a test.
#[derive(Drop)]
struct TestPads {
    accounts: Accounts,
    cells: Vec<SharedPad<BlockSeq>>,
    names: Names,
}

impl TestPads {
    fn new<R: Wait>(rt: &R, alloc: Global) -> Result<TestPads, Refusal> {
        let cells = open_row(alloc, 1, DEFAULT_PRESENT, 2, 2)?;
        let names = Names::fill(rt, alloc, cells.as_slice())?;
        Ok(TestPads {
            accounts: accounts(alloc)?,
            cells,
            names,
        })
    }

    fn row<'a, R: Wait>(&'a self, rt: &'a R, gate: &'a Open) -> PadTable<'a, BlockSeq, R, Open> {
        PadTable {
            rt,
            cells: self.cells.as_slice(),
            names: &self.names,
            replica: 1,
            accounts: &self.accounts,
            gate,
        }
    }
}

// Makes seats at each cell of a row.
fn seats<R: Wait>(
    alloc: Global,
    row: &PadTable<'_, BlockSeq, R, Open>,
) -> Result<Vec<Seat>, Refusal> {
    let mut seats = Vec::new(alloc);
    take_seats(row.rt, row.cells, &mut seats)?;
    Ok(seats)
}

fn says(rt: &impl Abort, client: &TalkingClient, want: &str, at: usize) {
    let came = client.written.as_slice();
    assert!(rt;
        came == want.as_bytes(),
        "cut at {at}: wanted {want}, came {}",
        came.escape_ascii()
    );
}

#[test]
fn a_story_cut_at_each_byte_has_the_replies_of_the_whole(rt: HostRuntime) -> Result<(), Fail> {
    let alloc = rt.alloc();
    let bytes = STORY.as_bytes();
    for cut in 0..bytes.len() {
        let stage = TestPads::new(&rt, alloc)?;
        let row = stage.row(&rt, &Open);
        let mut pads = Shared::new(&row, seats(alloc, &row)?, Session::new(alloc));
        let mut client = TalkingClient::new(alloc);
        client.hear(alloc, &mut pads, &bytes[..cut])?;
        client.hear(alloc, &mut pads, &bytes[cut..])?;
        says(&rt, &client, REPLIES, cut);
        let served = client.conversation.served();
        assert!(rt;
            (served.lines, served.delivered) == (5, 1),
            "came {served:?}"
        );
    }
    Ok(())
}

#[test]
fn a_client_goes_to_another_thread_in_the_middle_of_a_line(rt: HostRuntime) -> Result<(), Fail> {
    let alloc = rt.alloc();
    let bytes = STORY.as_bytes();
    for cut in 0..bytes.len() {
        let stage = TestPads::new(&rt, alloc)?;
        let row = stage.row(&rt, &Open);
        let mut first = Shared::new(&row, seats(alloc, &row)?, Session::new(alloc));
        let mut second = Shared::new(&row, seats(alloc, &row)?, Session::new(alloc));
        let mut client = TalkingClient::new(alloc);
        client.hear(alloc, &mut first, &bytes[..cut])?;
        client.hear(alloc, &mut second, &bytes[cut..])?;
        says(&rt, &client, REPLIES, cut);
    }
    Ok(())
}

#[test]
fn two_clients_of_one_thread_keep_their_sessions(rt: HostRuntime) -> Result<(), Fail> {
    let alloc = rt.alloc();
    let stage = TestPads::new(&rt, alloc)?;
    let row = stage.row(&rt, &Open);
    let mut pads = Shared::new(&row, seats(alloc, &row)?, Session::new(alloc));
    let mut first = TalkingClient::new(alloc);
    let mut second = TalkingClient::new(alloc);
    let other = concat!(
        r#"{"do":"hello","name":"a2","token":"t"}"#,
        "\n",
        r#"{"do":"text","pad":"one"}"#,
        "\n",
    );
    for (at, byte) in STORY.as_bytes().iter().enumerate() {
        first.hear(alloc, &mut pads, &[*byte])?;
        if at < CREATED {
            continue;
        }
        if let Some(also) = other.as_bytes().get(at - CREATED) {
            second.hear(alloc, &mut pads, &[*also])?;
        }
    }
    says(&rt, &first, REPLIES, 0);
    let refused = concat!(
        r#"{"author":"a2@1","ok":true}"#,
        "\n",
        r#"{"code":310,"error":"NotJoined","ok":false}"#,
        "\n",
    );
    says(&rt, &second, refused, 0);
    Ok(())
}

#[test]
fn a_last_line_without_its_line_feed_is_answered(rt: HostRuntime) -> Result<(), Fail> {
    let alloc = rt.alloc();
    let stage = TestPads::new(&rt, alloc)?;
    let row = stage.row(&rt, &Open);
    let mut pads = Shared::new(&row, seats(alloc, &row)?, Session::new(alloc));
    let mut client = TalkingClient::new(alloc);
    client.hear(alloc, &mut pads, STORY.trim_end().as_bytes())?;
    assert!(rt;
        client.end(alloc, &mut pads)?,
        "the last line has no answer"
    );
    says(&rt, &client, REPLIES, 0);
    assert!(rt; !client.end(alloc, &mut pads)?, "nothing has an answer");
    Ok(())
}
