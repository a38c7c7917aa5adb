//! A transcript, and what is asked of a line before it is written.

ghost use Rattle.std.specs.Prelude.{◌≡◌, true};
ghost use Rattle.transcript_text.specs.Writing.{IsWritable};

use event_schedule::Line;
use group_plan::Kind;
use missing_round::MeterSet;
use mod_word::Word;

/// As `PLAIN`, but the reading of meter 2 comes after the Close.
pub(crate) static LATE: &str = "\
meteragg transcript 2\n\
rounds,1\n\
windows,1,2\n\
group,north,3,2\n\
begin\n\
0,s,0,0,r,0,1,4d02010000000000000000000000000000000000000000000000000000000000000000000000000000000000b0b9d4e209a2296c\n\
0,s,0,0,r,1,1,4d02010100000000000000000000000000000000000000000000000000000000000000000000000000000000903df1a0ade0b88a\n\
0,s,0,0,r,2,2,4d020102000000000000000000000000000000000000000000000000000000000000000000000000000000006fc20e5f521f47a8\n\
1,t,0,0,r,0,fresh\n\
1,t,0,0,r,1,fresh\n\
1,c,0,0,announced,2\n\
1,s,0,0,m,0,1,4d020200000000000000000000000000000000000000000000000000000000000000000000000000000000040000000000000000\n\
1,s,0,0,m,1,1,4d020201000000000000000000000000000000000000000000000000000000000000000000000000000000040000000000000000\n\
2,t,0,0,r,2,late\n\
2,t,0,0,m,0,fresh\n\
2,t,0,0,m,1,fresh\n\
2,s,0,0,a,0,1,4d02030000000000000000000000000000000000000000000000000000000000000000000000000000000004207be3415bc170ec\n\
2,s,0,0,a,1,1,4d02030100000000000000000000000000000000000000000000000000000000000000000000000000000004207be3415bc170ec\n\
3,t,0,0,a,0,fresh\n\
3,t,0,0,a,1,fresh\n\
3,e,0,0,total,30\n\
end,16\n";

/// Whether a frame of the line is the line's, and one that is written.
pub(crate) fn is_writable(line: &Line) -> bool
    ensures { result ≡ true → IsWritable line.now }
{
    match line {
        Line::Send {
            tag,
            frame: Some(frame),
        } => {
            let fits = match frame.tag.kind {
                Kind::Reading => frame.missing == MeterSet::empty(),
                Kind::Announcement => frame.word == Word(0),
                Kind::Answer => true,
            };
            frame.tag == *tag && fits
        }
        _ => true,
    }
}
