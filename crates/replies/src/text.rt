// The text of a message.
ghost use Rattle.std.specs.Prelude.{◌≡◌, ◌/◌, length};
ghost use Rattle.lines.specs.Text.{Puts};
ghost use Rattle.lines.specs.Appends.{Appends};
ghost use Rattle.replies.specs.MessageText.{fault_text, row_text, rows_text, count_text, reply_text, rejection_text, message_text};

use crate::help::put_help;
use crate::{Message, Rejection, Reply};
use lines::text::Text;
use requests::Fault;

fn fault_text(fault: Fault) -> &'static [u8]
    ensures { result.now ≡ fault_text fault }
{
    match fault {
        Fault::NoRequest => b"unknown request, try help",
        Fault::FewWords => b"too few words",
        Fault::ManyWords => b"too many words",
        Fault::NotDecimal => b"not a decimal number",
        Fault::TooLarge => b"number too large",
        Fault::NotHex => b"not hexadecimal",
        Fault::LongLine => b"line too long",
    }
}

fn put_count(text: &mut Text<'_>, n: usize)
    ensures { Appends (count_text n) text.old text.new }
{
    text.push_all(b"ok ");
    text.push_decimal(n as u64);
    text.push(b'\n');
}

fn put_row(text: &mut Text<'_>, row: &[u64])
    ensures { Appends (row_text row.now) text.old text.new }
{
    if let Some((last, front)) = row.split_last() {
        for n in front {
            text.push_decimal(*n);
            text.push(b' ');
        }
        text.push_decimal(*last);
    }
    text.push(b'\n');
}

fn put_rows(text: &mut Text<'_>, rows: &[u64])
    ensures { Appends (rows_text (length rows.now / 6) rows.now) text.old text.new }
{
    for row in rows.chunks_exact(6) {
        put_row(text, row);
    }
}

fn put_reply(text: &mut Text<'_>, reply: Reply<'_>)
    ensures { Appends (reply_text reply.entry) text.old text.new }
{
    match reply {
        Reply::Done => text.push_all(b"ok\n"),
        Reply::Rows(rows) => {
            put_count(text, rows.len() / 6);
            put_rows(text, rows);
        }
        Reply::Over(Some(section)) => put_count(text, section),
        Reply::Over(None) => text.push_all(b"ok none\n"),
        Reply::File(bytes) => {
            text.push_all(b"ok ");
            text.push_hex(bytes);
            text.push(b'\n');
        }
        Reply::Help => put_help(text),
    }
}

fn put_rejection(text: &mut Text<'_>, rejection: Rejection)
    ensures { Appends (rejection_text rejection) text.old text.new }
{
    match rejection {
        Rejection::Wrong(fault) => {
            text.push_all(b"error ");
            text.push_all(fault_text(fault));
        }
        Rejection::Refused(refusal) => {
            text.push_all(b"refused ");
            text.push_decimal(u64::from(u32::from(refusal)));
        }
    }
    text.push(b'\n');
}

// Puts a message at the start of out, as far as out reaches, and answers its length.
#[tactic(auto, unfolding(crate::specs::MessageText::message_text))]
pub fn put_message(out: &mut [u8], message: Message<'_>) -> usize
    ensures { Puts (message_text message.entry) out.old 0 out.new result }
{
    let mut text = Text::new(out);
    match message {
        Ok(reply) => put_reply(&mut text, reply),
        Err(rejection) => put_rejection(&mut text, rejection),
    }
    text.len()
}
