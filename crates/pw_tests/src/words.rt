//! What words ask for, where no command shows it: the usual limit and port, and the greatest numbers.

use pw_words::Command;
use pw_words::words::command;
use std::alloc::Global;

const LIMIT: u32 = 1_000_000;

// bears on: pw_words words.rt command memory
// bears on: pw_words words.rt command pipe
#[test]
fn no_words(rt: HostRuntime) {
    let asked = command(rt.alloc(), &[]);
    assert!(rt;
        matches!(
            asked,
            Ok(Command::Pipe {
                office: None,
                limit: LIMIT
            })
        )
    );
}

// Words of servers, and what they say: how many connections, the port, and whether uploads are told.
const SERVERS: [(&[&str], u32, u16, bool); 3] = [
    (&["serve", "o", "s", "--count", "0"], 0, 8_460, false),
    (
        &["serve", "o", "s", "--count", "4294967295", "--port", "1"],
        u32::MAX,
        1,
        false,
    ),
    (
        &["serve", "o", "s", "--tell", "--port=65535", "--count=2"],
        2,
        65_535,
        true,
    ),
];

fn is_server_asked_for(alloc: Global, words: &[&str], count: u32, port: u16, tells: bool) -> bool {
    match command(alloc, words) {
        Ok(
            Command::Serve {
                office: "o",
                store: "s",
                count: Some(found),
                until_input_ends: false,
                port: at,
                limit: LIMIT,
                origins,
                tells: is_told,
            },
        ) => found == count && at == port && is_told == tells && origins.is_empty(),
        _ => false,
    }
}

#[test]
fn words_of_servers(rt: HostRuntime) {
    for (words, count, port, tells) in SERVERS {
        assert!(rt; is_server_asked_for(rt.alloc(), words, count, port, tells));
    }
}
