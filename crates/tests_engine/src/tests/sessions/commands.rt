//! What commands answer, from the bytes in to the bytes out. Most of it is in `tests/references/engine/worked.txt`,
//! which the built engine is given.
use crate::tests::sessions::{Call, assert_serves_in_any_cuts};
use gtp_session::serve::Served;

/// A ko on a board of size 4, which Black may retake only after two passes.
pub const KO_INPUT: &[u8] =
    b"boardsize 4\nplay b A2\nplay w C1\nplay b B1\nplay w B2\nplay b D4\nplay w A1\nplay b B1\n\
        play b pass\nplay w pass\nplay b B1\nshowboard\n";

/// The replies to it.
pub const KO_OUTPUT: &[u8] = b"=\n\n=\n\n=\n\n=\n\n=\n\n=\n\n=\n\n? illegal move\n\n=\n\n=\n\n=\n\n\
        = . . . X 4\n. . . . 3\nX O . . 2\n. X O . 1\nA B C D\ncaptures B 1 W 1\n\n";

/// Conversations of fresh sessions with the first policy: the name of each, the input, the output, and how it ends.
pub static CONVERSATIONS: [(&str, &[u8], &[u8], Served); 19] = [
    (
        "ids",
        b"99999999999 name\n5\n2147483647 name\n2147483648 name\n007 version\n",
        b"? unknown command\n\n?5 unknown command\n\n=2147483647 stepgo\n\n? unknown command\n\n=7 1.0\n\n",
        Served::EndOfInput,
    ),
    (
        "spellings and refusals of play",
        b"boardsize 9\nplay b I5\nplay b a1\nplay w Z25\nplay w A26\nplay w B01\nplay w pAsS\nplay green B1\n\
            PLAY b B1\nboardsize 26\nboardsize nine\n",
        b"=\n\n? syntax error\n\n=\n\n? illegal move\n\n? syntax error\n\n? syntax error\n\n=\n\n\
            ? syntax error\n\n? unknown command\n\n? unacceptable size\n\n? syntax error\n\n",
        Served::EndOfInput,
    ),
    (
        "suicide is illegal",
        b"boardsize 2\nplay b B1\nplay b A2\nplay w A1\n",
        b"=\n\n=\n\n=\n\n? illegal move\n\n",
        Served::EndOfInput,
    ),
    (
        "ko is lifted by passes",
        KO_INPUT,
        KO_OUTPUT,
        Served::EndOfInput,
    ),
    (
        "undo takes a capture back",
        b"boardsize 2\nplay b A1\nplay w B1\nplay b A2\nplay w B2\nshowboard\nundo\nshowboard\n",
        b"=\n\n=\n\n=\n\n=\n\n=\n\n= . O 2\n. O 1\nA B\ncaptures B 0 W 2\n\n=\n\n\
            = X . 2\nX O 1\nA B\ncaptures B 0 W 0\n\n",
        Served::EndOfInput,
    ),
    (
        "a score is area and komi",
        b"boardsize 3\nkomi 0.5\nplay b B1\nplay b B2\nplay b B3\nfinal_score\nclear_board\nkomi 0\n\
            final_score\n",
        b"=\n\n=\n\n=\n\n=\n\n=\n\n= B+8.5\n\n=\n\n=\n\n= 0\n\n",
        Served::EndOfInput,
    ),
    (
        "spellings of komi and the scores they give",
        b"komi -3.50\nfinal_score\nkomi .5\nkomi 6.7\nkomi 1e1\nkomi .\nkomi 0000000006.5\nfinal_score\n\
            komi +7.\nfinal_score\n",
        b"=\n\n= B+3.5\n\n=\n\n? syntax error\n\n? syntax error\n\n? syntax error\n\n? syntax error\n\n\
            = W+0.5\n\n=\n\n= W+7\n\n",
        Served::EndOfInput,
    ),
    (
        "handicap stones are never taken back",
        b"undo\nfixed_handicap 2\nundo\n",
        b"? cannot undo\n\n= D4 Q16\n\n? cannot undo\n\n",
        Served::EndOfInput,
    ),
    (
        "known_command speaks of the commands that are there",
        b"known_command genmove\nknown_command time_left\nknown_command\ntime_left b 10 0\nname x y\n",
        b"= true\n\n= false\n\n? syntax error\n\n? unknown command\n\n= stepgo\n\n",
        Served::EndOfInput,
    ),
    (
        "further words are ignored",
        b"protocol_version 1\nversion 9\nboardsize 9 19\nkomi 5 6.7\nplay b A1 A2\ngenmove w b\nundo 2\n\
            version\nfinal_score now\nclear_board 9\nfixed_handicap 2 3\n",
        b"= 2\n\n= 1.0\n\n=\n\n=\n\n=\n\n= B1\n\n=\n\n= 1.0\n\n= B+76\n\n=\n\n= C3 G7\n\n",
        Served::EndOfInput,
    ),
    (
        "fixed handicaps and their refusals",
        b"fixed_handicap 3\nfixed_handicap 1\nboardsize 9\nfixed_handicap 1\nfixed_handicap 10\n\
            fixed_handicap 9\nboardsize 8\nfixed_handicap 5\nfixed_handicap 4\nclear_board\nplay b pass\n\
            fixed_handicap 2\n",
        b"= D4 Q16 D16\n\n? board not empty\n\n=\n\n? invalid number of stones\n\n\
            ? invalid number of stones\n\n= C3 G7 C7 G3 C5 G5 E3 E7 E5\n\n=\n\n\
            ? invalid number of stones\n\n= C3 F6 C6 F3\n\n=\n\n=\n\n? board not empty\n\n",
        Served::EndOfInput,
    ),
    (
        "the first conversation",
        b"1 protocol_version\n2 quit\n",
        b"=1 2\n\n=2\n\n",
        Served::Quit,
    ),
    (
        "comments and control characters are no part of a line",
        b"# a comment\n\t\n3\tna\x01me # x\r\n",
        b"=3 stepgo\n\n",
        Served::EndOfInput,
    ),
    (
        "nothing is executed after quit",
        b"quit\nname\n",
        b"=\n\n",
        Served::Quit,
    ),
    (
        "a choice is made before quit",
        b"genmove b\nquit\nname\n",
        b"= A1\n\n=\n\n",
        Served::Quit,
    ),
    (
        "comments and control characters in a play",
        b"# a game\n\t\n3\tpl\x01ay b D4 # corner\r\n",
        b"=3\n\n",
        Served::EndOfInput,
    ),
    (
        "an unfinished play is not executed",
        b"play b D1",
        b"",
        Served::EndOfInput,
    ),
    (
        "a play, and an unfinished one",
        b"# a game\n\t\n3\tpl\x01ay b D4 # corner\r\nplay b D1",
        b"=3\n\n",
        Served::EndOfInput,
    ),
    (
        "the first candidates",
        b"boardsize 2\ngenmove b\ngenmove w\nboardsize 1\n7 genmove b\n",
        b"=\n\n= A1\n\n= B1\n\n=\n\n=7 pass\n\n",
        Served::EndOfInput,
    ),
];

#[test]
fn conversations_are_answered_in_any_cuts(rt: HostRuntime) {
    for (name, input, output, served) in &CONVERSATIONS {
        assert_serves_in_any_cuts(&rt, name, Call::Serve, input, output, *served);
    }
}
