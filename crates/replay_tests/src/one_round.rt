//! A whole drill.

/// The lines of the drill of one round.
pub(crate) const ONE_ROUND: &str = "session GATE P0
session GATE P1
session GATE P2
session GATE P3
session GATE P4
session GATE P5
session GATE P6
session GATE P7
libraries 4
at 20260105-09:30:00.000
connect
connect
connect
connect
connect
connect
connect
connect
frame 0 35=A|49=P0|56=GATE|34=1|52=20260105-09:30:00.000|98=0|108=30|
frame 1 35=A|49=P1|56=GATE|34=1|52=20260105-09:30:00.000|98=0|108=30|
frame 2 35=A|49=P2|56=GATE|34=1|52=20260105-09:30:00.000|98=0|108=30|
frame 3 35=A|49=P3|56=GATE|34=1|52=20260105-09:30:00.000|98=0|108=30|
frame 4 35=A|49=P4|56=GATE|34=1|52=20260105-09:30:00.000|98=0|108=30|
frame 5 35=A|49=P5|56=GATE|34=1|52=20260105-09:30:00.000|98=0|108=30|
frame 6 35=A|49=P6|56=GATE|34=1|52=20260105-09:30:00.000|98=0|108=30|
frame 7 35=A|49=P7|56=GATE|34=1|52=20260105-09:30:00.000|98=0|108=30|
turn
turn
turn
turn
turn
turn
turn
turn
lib 1 request 1 0
lib 2 request 2 0
lib 3 request 3 0
lib 4 request 4 0
turn
frame 0 35=D|49=P0|56=GATE|34=2|52=20260105-09:30:00.000|11=0|
frame 1 35=D|49=P1|56=GATE|34=2|52=20260105-09:30:00.000|11=0|
frame 2 35=D|49=P2|56=GATE|34=2|52=20260105-09:30:00.000|11=0|
frame 3 35=D|49=P3|56=GATE|34=2|52=20260105-09:30:00.000|11=0|
frame 4 35=D|49=P4|56=GATE|34=2|52=20260105-09:30:00.000|11=0|
frame 5 35=D|49=P5|56=GATE|34=2|52=20260105-09:30:00.000|11=0|
frame 6 35=D|49=P6|56=GATE|34=2|52=20260105-09:30:00.000|11=0|
frame 7 35=D|49=P7|56=GATE|34=2|52=20260105-09:30:00.000|11=0|
turn
lib 1 poll
lib 1 poll
lib 1 send 1 35=8|37=0|
lib 1 release 1
lib 2 poll
lib 2 poll
lib 2 send 2 35=8|37=0|
lib 2 release 2
lib 3 poll
lib 3 poll
lib 3 send 3 35=8|37=0|
lib 3 release 3
lib 4 poll
lib 4 poll
lib 4 send 4 35=8|37=0|
lib 4 release 4
turn
finish 0
finish 1
finish 2
finish 3
finish 4
finish 5
finish 6
finish 7
turn
";
