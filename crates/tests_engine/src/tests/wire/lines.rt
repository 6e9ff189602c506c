//! Lines: ids, words, and what is too long.
use crate::asserts::assert_equal_for;
use arrayvec::ArrayVec;
use go_base::write_int;
use gtp_wire::{Line, LineReader};

/// What a reader gave: each line's id in brackets, a space before each word, and a semicolon.
type Shown = ArrayVec<u8, 512>;

fn show(line: &Line, shown: &mut Shown) {
    match line {
        Line::TooLong => {
            let _ = shown.try_extend_from_slice(b"too long");
        }
        Line::Command(command) => {
            let _ = shown.try_push(b'[');
            if let Some(id) = command.id() {
                let _ = shown.try_extend_from_slice(&write_int(id));
            }
            let _ = shown.try_push(b']');
            for number in 0..100 {
                let Some(word) = command.word(number) else {
                    break;
                };
                let _ = shown.try_push(b' ');
                let _ = shown.try_extend_from_slice(word);
            }
        }
    }
    let _ = shown.try_push(b';');
}

/// Texts, and their lines.
static LINES: [(&[u8], &[u8]); 13] = [
    (
        b"# a game\n\t\n3\tpl\x01ay b D4 # corner\r\n",
        b"[3] play b D4;",
    ),
    (b"# a comment\n\t\n3\tna\x01me # x\r\n", b"[3] name;"),
    (b"na\rme#x y\r\n", b"[] name;"),
    (b"99999999999 name\n", b"[] 99999999999 name;"),
    (b"5\n", b"[5];"),
    (b"2147483647 name\n", b"[2147483647] name;"),
    (b"2147483648 name\n", b"[] 2147483648 name;"),
    (b"007 version\n", b"[7] version;"),
    (b"00000000007 version\n", b"[7] version;"),
    (b"play b D1", b""),
    (b" \nquit\nname\n", b"[] quit;[] name;"),
    (b"# known_command\n", b""),
    // Blank lines, comments, control characters, HT, ids, bytes past 127 and an unfinished line.
    (
        b"\n \t\n#\n12 play\tb  D4 #x\r\n\x01\n  n\x7fame\xe4 x y\n5\n 007  version \n#a b\nquit",
        b"[12] play b D4;[] name\xe4 x y;[5];[7] version;",
    ),
];

#[test]
fn a_line_is_an_id_and_words(rt: HostRuntime) {
    for (text, wanted) in &LINES {
        let mut shown = ArrayVec::new();
        let mut reader = LineReader::new();
        let mut left = *text;
        for _ in 0..=text.len() {
            let fed = reader.feed(left);
            left = &left[fed.used..];
            if let Some(line) = &fed.line {
                show(line, &mut shown);
            }
        }
        assert_equal_for(&rt, text, shown.as_slice(), wanted);
    }
}

#[test]
fn the_words_of_a_line_have_at_most_1000_bytes(rt: HostRuntime) {
    let letters = [b'x'; 987];
    let spaces = [b' '; 5000];
    // Three chunks, and whether a newline after them ends a line that is a command, if it ends a line.
    let lines: [(&[u8], &[u8], &[u8], Option<bool>); 5] = [
        (b"known_command ", &letters[..986], b"", Some(true)),
        (b"known_command ", &letters, b"", Some(false)),
        (b"7 known_command ", &letters[..985], b"", Some(false)),
        // Neither a comment nor spaces count.
        (b"# known_command ", &letters, b"", None),
        (&spaces, b"name", &spaces, Some(true)),
    ];
    for (front, middle, end, wanted) in lines {
        let mut reader = LineReader::new();
        reader.feed(front);
        reader.feed(middle);
        reader.feed(end);
        let is_command = match reader.feed(b"\n").line {
            Some(Line::Command(_)) => Some(true),
            Some(Line::TooLong) => Some(false),
            None => None,
        };
        assert_equal_for(&rt, (front, middle.len()), is_command, wanted);
    }
}
