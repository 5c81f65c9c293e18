//! Calls as lines of scripts, and entries with their replies as comments.

ghost use Rattle.std.specs.Prelude.{◌≡◌};

use super::*;
use record_codec::{Bytes, Event, Name, encode};
use std::test::Fail;
use tree_core::{Call, Entry, Reply, State};
use tree_ops::Answer;
use tree_paths::{Limits, Names, Refusal};
use watchtree_script::{
    append_call_line, append_entry, calls_are_read_back, lines_ask_for_script_calls, print_line,
};

/// What stands before the line of a call.
pub(super) const FRONT: &[u8] = b"# run 1\n";

/// A line, and the line of the call that it makes.
const LINES: [(&str, &str); 26] = [
    ("mkdir  //d 00755", "mkdir /d 755\n"),
    ("mkdir / 0", "mkdir / 0\n"),
    ("create /a%20b 777777", "create /a%20b 777777\n"),
    ("create /%25%c3%a9%41~ 7", "create /%25%C3%A9A~ 7\n"),
    ("write /d/f 0 -", "write /d/f 0 -\n"),
    (
        "write /f 18446744073709551615 006FfF",
        "write /f 18446744073709551615 006fff\n",
    ),
    ("cat /f 010 4294967295", "cat /f 10 4294967295\n"),
    ("truncate /f 00", "truncate /f 0\n"),
    ("chmod /f 10", "chmod /f 10\n"),
    ("link /a /b", "link /a /b\n"),
    ("unlink /a", "unlink /a\n"),
    ("rmdir /a", "rmdir /a\n"),
    ("rename /new /old", "rename /new /old\n"),
    ("rename2 /x /y 2", "rename2 /x /y 2\n"),
    ("stat /", "stat /\n"),
    ("list /%0a", "list /%0A\n"),
    ("init", "init 16384\n"),
    ("init 9", "init 9\n"),
    ("watch 1 /d 0x00000FfF", "watch 1 /d 0xfff\n"),
    ("watch 2 / 0x80000000", "watch 2 / 0x80000000\n"),
    ("watch 2 / 0x0", "watch 2 / 0x0\n"),
    ("unwatch 1 -2147483648", "unwatch 1 -2147483648\n"),
    ("unwatch 1 7", "unwatch 1 7\n"),
    ("read 1 64", "read 1 64\n"),
    ("hex 1 64", "read 1 64\n"),
    ("close 3", "close 3\n"),
];

#[test]
fn calls_as_lines(rt: HostRuntime) {
    let alloc = rt.alloc();
    let mut state = State::new(alloc, Limits::full()).expect(&rt, "memory");
    let mut text = Vec::new(alloc);
    for (line, wanted) in &LINES {
        let printed = print_line(&mut text, &mut state, QUEUE, 1, line.as_bytes());
        equal(&rt, printed, Ok(()));
        text.clear();
        let entry = state.last_entry().expect(&rt, "an entry");
        append_call_line(&entry.call, &mut text).expect(&rt, "memory");
        equal(&rt, text.as_slice(), wanted.as_bytes());
    }
    calls_are_read_back();
    lines_ask_for_script_calls();
}

/// An entry of caller 1, with this reply to a read.
pub(super) fn entry_of(reply: Reply) -> Entry
    ensures { result.reply ≡ reply }
{
    Entry {
        caller: 1,
        call: Call::Read {
            instance: 1,
            bytes: 64,
        },
        reply,
    }
}

/// The names `a b` and `c`.
pub(super) fn two_names(rt: &impl Abort, alloc: Global) -> Names {
    let mut names = Vec::new(alloc);
    for bytes in [b"a b".as_slice(), b"c"] {
        let name = Name::new(alloc, bytes).expect(rt, "memory");
        names.extend(name).expect(rt, "memory");
    }
    Names::from_vec(names)
}

/// Adds the entry of a read of two records to the text.
fn append_read(alloc: Global, text: &mut Vec<u8>) -> Result<(), Fail> {
    let events = [
        Event {
            wd: 1,
            mask: 0x100,
            cookie: 0,
            name: Name::new(alloc, b"f")?,
        },
        Event {
            wd: -1,
            mask: 0x4000,
            cookie: 0,
            name: None,
        },
    ];
    let bytes = encode(alloc, events.as_slice())?;
    let entry = entry_of(Reply::Records(Bytes::from_vec(bytes)));
    append_entry(&entry, text)?;
    Ok(())
}

/// The text of three entries behind others: one that was refused, one with names, and one with two records.
#[test]
fn entries_with_replies(rt: HostRuntime) -> Result<(), Fail> {
    let alloc = rt.alloc();
    let mut text = Vec::from_slice(alloc, FRONT)?;
    append_entry(&entry_of(Reply::Refused(Refusal::Eagain)), &mut text)?;
    let names = two_names(&rt, alloc);
    append_entry(&entry_of(Reply::File(Answer::Names(names))), &mut text)?;
    append_read(alloc, &mut text)?;
    let wanted = b"# run 1\nread 1 64\n# err EAGAIN 11\nread 1 64\n# ok 2\n#   a%20b\n#   c\n\
        read 1 64\n# ok 48\n#   1 00000100 0 f\n#   -1 00004000 0\n";
    equal(&rt, text.as_slice(), wanted.as_slice());
    Ok(())
}
