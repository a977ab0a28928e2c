// What words ask for. The rows were compared with an independent program.
use crate::call::Call;
use crate::words::call_of_words;
use std::alloc::{AllocError, Global};
use std::test::Fail;

// The words, and the call, if they have the form of one.
type Row = (&'static [&'static str], Option<Call>);

const ROWS: [Row; 82] = [
    (&["decide"], Some(Call::Decide(200_000))),
    (&[], None),
    (&[""], None),
    (&["check"], Some(Call::Check)),
    (&["Decide"], None),
    (&["decid"], None),
    (&["decide", ""], None),
    (&["decide", "decide"], None),
    (&["decide", "3"], None),
    (&["decide", "--budget", "5"], Some(Call::Decide(5))),
    (&["--budget", "5", "decide"], Some(Call::Decide(5))),
    (&["decide", "--budget=5"], Some(Call::Decide(5))),
    (&["--budget=5", "decide"], Some(Call::Decide(5))),
    (&["decide", "--budget", "0000005"], Some(Call::Decide(5))),
    (&["decide", "--budget", "00000005"], None),
    (
        &["decide", "--budget", "4000000"],
        Some(Call::Decide(4_000_000)),
    ),
    (&["decide", "--budget", "4000001"], None),
    (&["decide", "--budget", "9999999"], None),
    (&["decide", "--budget", "0"], None),
    (&["decide", "--budget", "0000000"], None),
    (&["decide", "--budget", "1"], Some(Call::Decide(1))),
    (&["decide", "--budget", ""], None),
    (&["decide", "--budget="], None),
    (&["decide", "--budget"], None),
    (&["decide", "--budget", "-5"], None),
    (&["decide", "--budget=-5"], None),
    (&["decide", "--budget", "+5"], None),
    (&["decide", "--budget", "5x"], None),
    (&["decide", "--budget", " 5"], None),
    (&["decide", "--budget", "1", "--budget", "2"], None),
    (&["decide", "--budget=1", "--budget=1"], None),
    (&["decide", "--budget", "5", "6"], None),
    (&["decide", "--Budget", "5"], None),
    (&["decide", "--budge", "5"], None),
    (&["decide", "-budget", "5"], None),
    (&["decide", "-b", "5"], None),
    (&["decide", "--"], Some(Call::Decide(200_000))),
    (&["--", "decide"], Some(Call::Decide(200_000))),
    (&["--", "decide", "--budget"], None),
    (&["decide", "--", "--budget", "5"], None),
    (&["decide", "--budget", "--", "5"], None),
    (&["decide", "--help"], None),
    (&["--help"], None),
    (&["-h"], None),
    (&["decide", "--version"], None),
    (&["help"], None),
    (&["-"], None),
    (&["decide", "-"], None),
    (&["--"], None),
    (&["sample"], None),
    (&["sample", "7"], Some(Call::Sample(7))),
    (&["sample", "007"], Some(Call::Sample(7))),
    (&["sample", "0"], Some(Call::Sample(0))),
    (&["sample", "000000"], Some(Call::Sample(0))),
    (&["sample", "999999"], Some(Call::Sample(999_999))),
    (&["sample", "1234567"], None),
    (&["sample", "0000007"], None),
    (&["sample", "-7"], None),
    (&["sample", "+7"], None),
    (&["sample", "7x"], None),
    (&["sample", ""], None),
    (&["sample", "--", "7"], Some(Call::Sample(7))),
    (&["sample", "7", "--"], Some(Call::Sample(7))),
    (&["sample", "7", "8"], None),
    (&["sample", "7", "--budget", "5"], None),
    (&["--budget=5", "sample", "7"], None),
    (&["sample", "--budget", "5"], None),
    (&["7", "sample"], None),
    (&["check", "7"], None),
    (&["check", "--budget", "5"], None),
    (&["--budget=5", "check"], None),
    (&["check", "--budget"], None),
    (&["check", "--"], Some(Call::Check)),
    (&["--", "check"], Some(Call::Check)),
    (&["--", "check", "--budget"], None),
    (&["check", "--", "7"], None),
    (&["check", "check"], None),
    (&["check", ""], None),
    (&["check", "-"], None),
    (&["check", "--help"], None),
    (&["Check"], None),
    (&["checks"], None),
];

fn owned(alloc: Global, words: &[&str]) -> Result<Vec<String>, AllocError> {
    let mut all = Vec::new(alloc);
    for word in words {
        all.push(word.to_string(alloc)?)?;
    }
    Ok(all)
}

#[test]
fn words_are_calls(rt: HostRuntime) -> Result<(), Fail> {
    for (words, call) in ROWS {
        let words = owned(rt.alloc(), words)?;
        assert_eq!(rt; call_of_words(rt.alloc(), &words)?, call, "{words:?}");
    }
    Ok(())
}
