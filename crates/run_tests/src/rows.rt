//! Whole scripts, each with its whole report.

pub(crate) const ROW: &str = "session GATE BUYER
libraries 1
at 20260105-09:30:00.000
connect
frame 0 35=A|49=BUYER|56=GATE|34=1|52=20260105-09:30:00.000|98=0|108=30|
frame 0 35=D|49=BUYER|56=GATE|34=2|52=20260105-09:30:00.000|11=A1|
frame 0 35=D|49=BUYER|56=GATE|34=3|52=20260105-09:30:00.000|11=A2|
finish 0
turn
turn
";

pub(crate) const ROW_REPORT: &str = "fixgate report 1
session 0 GATE BUYER owner 0 lease 0 in 2 out 1
 bind 0
 admin 1
 arrive 0
 arrive 1
 leave 0
 holding 0 0 from 0 start 0 end 2 sends 0
 in 0 35=D|49=BUYER|56=GATE|34=2|52=20260105-09:30:00.000|11=A1|
 in 1 35=D|49=BUYER|56=GATE|34=3|52=20260105-09:30:00.000|11=A2|
 out 1 20260105-09:30:00.000 35=A|98=0|108=30|
connection 0 session 0 taken 246 garbled 0 written 86 cause end
 wrote 8=FIX.4.4|9=64|35=A|49=GATE|56=BUYER|34=1|52=20260105-09:30:00.000|98=0|108=30|10=148|
library 1 reads 0
end
";

pub(crate) const NO_MESSAGES: &str = "session GATE BUYER
libraries 1
at 20260105-09:30:00.000
connect
frame 0 35=A|49=BUYER|56=GATE|34=1|52=20260105-09:30:00.000|98=0|108=30|
finish 0
turn
turn
";

pub(crate) const NO_MESSAGES_REPORT: &str = "fixgate report 1
session 0 GATE BUYER owner 0 lease 0 in 0 out 1
 bind 0
 admin 1
 leave 0
 holding 0 0 from 0 start 0 end 0 sends 0
 out 1 20260105-09:30:00.000 35=A|98=0|108=30|
connection 0 session 0 taken 86 garbled 0 written 86 cause end
 wrote 8=FIX.4.4|9=64|35=A|49=GATE|56=BUYER|34=1|52=20260105-09:30:00.000|98=0|108=30|10=148|
library 1 reads 0
end
";

pub(crate) const THREE_MESSAGES: &str = "session GATE BUYER
libraries 1
at 20260105-09:30:00.000
connect
frame 0 35=A|49=BUYER|56=GATE|34=1|52=20260105-09:30:00.000|98=0|108=30|
frame 0 35=D|49=BUYER|56=GATE|34=2|52=20260105-09:30:00.000|11=A1|
frame 0 35=D|49=BUYER|56=GATE|34=3|52=20260105-09:30:00.000|11=A2|
frame 0 35=D|49=BUYER|56=GATE|34=4|52=20260105-09:30:00.000|11=A3|
finish 0
turn
turn
";

pub(crate) const THREE_MESSAGES_REPORT: &str = "fixgate report 1
session 0 GATE BUYER owner 0 lease 0 in 3 out 1
 bind 0
 admin 1
 arrive 0
 arrive 1
 arrive 2
 leave 0
 holding 0 0 from 0 start 0 end 3 sends 0
 in 0 35=D|49=BUYER|56=GATE|34=2|52=20260105-09:30:00.000|11=A1|
 in 1 35=D|49=BUYER|56=GATE|34=3|52=20260105-09:30:00.000|11=A2|
 in 2 35=D|49=BUYER|56=GATE|34=4|52=20260105-09:30:00.000|11=A3|
 out 1 20260105-09:30:00.000 35=A|98=0|108=30|
connection 0 session 0 taken 326 garbled 0 written 86 cause end
 wrote 8=FIX.4.4|9=64|35=A|49=GATE|56=BUYER|34=1|52=20260105-09:30:00.000|98=0|108=30|10=148|
library 1 reads 0
end
";

pub(crate) const TEN_MESSAGES: &str = "session GATE BUYER
libraries 1
at 20260105-09:30:00.000
connect
frame 0 35=A|49=BUYER|56=GATE|34=1|52=20260105-09:30:00.000|98=0|108=30|
frame 0 35=D|49=BUYER|56=GATE|34=2|52=20260105-09:30:00.000|11=A1|
frame 0 35=D|49=BUYER|56=GATE|34=3|52=20260105-09:30:00.000|11=A2|
frame 0 35=D|49=BUYER|56=GATE|34=4|52=20260105-09:30:00.000|11=A3|
frame 0 35=D|49=BUYER|56=GATE|34=5|52=20260105-09:30:00.000|11=A4|
frame 0 35=D|49=BUYER|56=GATE|34=6|52=20260105-09:30:00.000|11=A5|
frame 0 35=D|49=BUYER|56=GATE|34=7|52=20260105-09:30:00.000|11=A6|
frame 0 35=D|49=BUYER|56=GATE|34=8|52=20260105-09:30:00.000|11=A7|
frame 0 35=D|49=BUYER|56=GATE|34=9|52=20260105-09:30:00.000|11=A8|
frame 0 35=D|49=BUYER|56=GATE|34=10|52=20260105-09:30:00.000|11=A9|
frame 0 35=D|49=BUYER|56=GATE|34=11|52=20260105-09:30:00.000|11=A10|
finish 0
turn
turn
";

pub(crate) const TEN_MESSAGES_REPORT: &str = "fixgate report 1
session 0 GATE BUYER owner 0 lease 0 in 10 out 1
 bind 0
 admin 1
 arrive 0
 arrive 1
 arrive 2
 arrive 3
 arrive 4
 arrive 5
 arrive 6
 arrive 7
 arrive 8
 arrive 9
 leave 0
 holding 0 0 from 0 start 0 end 10 sends 0
 in 0 35=D|49=BUYER|56=GATE|34=2|52=20260105-09:30:00.000|11=A1|
 in 1 35=D|49=BUYER|56=GATE|34=3|52=20260105-09:30:00.000|11=A2|
 in 2 35=D|49=BUYER|56=GATE|34=4|52=20260105-09:30:00.000|11=A3|
 in 3 35=D|49=BUYER|56=GATE|34=5|52=20260105-09:30:00.000|11=A4|
 in 4 35=D|49=BUYER|56=GATE|34=6|52=20260105-09:30:00.000|11=A5|
 in 5 35=D|49=BUYER|56=GATE|34=7|52=20260105-09:30:00.000|11=A6|
 in 6 35=D|49=BUYER|56=GATE|34=8|52=20260105-09:30:00.000|11=A7|
 in 7 35=D|49=BUYER|56=GATE|34=9|52=20260105-09:30:00.000|11=A8|
 in 8 35=D|49=BUYER|56=GATE|34=10|52=20260105-09:30:00.000|11=A9|
 in 9 35=D|49=BUYER|56=GATE|34=11|52=20260105-09:30:00.000|11=A10|
 out 1 20260105-09:30:00.000 35=A|98=0|108=30|
connection 0 session 0 taken 889 garbled 0 written 86 cause end
 wrote 8=FIX.4.4|9=64|35=A|49=GATE|56=BUYER|34=1|52=20260105-09:30:00.000|98=0|108=30|10=148|
library 1 reads 0
end
";

pub(crate) const NO_HEARTBEATS: &str = "session GATE BUYER
libraries 1
at 20260105-09:30:00.000
connect
frame 0 35=A|49=BUYER|56=GATE|34=1|52=20260105-09:30:00.000|98=0|108=0|
frame 0 35=D|49=BUYER|56=GATE|34=2|52=20260105-09:30:00.000|11=A1|
frame 0 35=D|49=BUYER|56=GATE|34=3|52=20260105-09:30:00.000|11=A2|
finish 0
turn
turn
";

pub(crate) const NO_HEARTBEATS_REPORT: &str = "fixgate report 1
session 0 GATE BUYER owner 0 lease 0 in 2 out 1
 bind 0
 admin 1
 arrive 0
 arrive 1
 leave 0
 holding 0 0 from 0 start 0 end 2 sends 0
 in 0 35=D|49=BUYER|56=GATE|34=2|52=20260105-09:30:00.000|11=A1|
 in 1 35=D|49=BUYER|56=GATE|34=3|52=20260105-09:30:00.000|11=A2|
 out 1 20260105-09:30:00.000 35=A|98=0|108=0|
connection 0 session 0 taken 245 garbled 0 written 85 cause end
 wrote 8=FIX.4.4|9=63|35=A|49=GATE|56=BUYER|34=1|52=20260105-09:30:00.000|98=0|108=0|10=096|
library 1 reads 0
end
";

pub(crate) const DAILY_HEARTBEATS: &str = "session GATE BUYER
libraries 1
at 20260105-09:30:00.000
connect
frame 0 35=A|49=BUYER|56=GATE|34=1|52=20260105-09:30:00.000|98=0|108=086400|
frame 0 35=D|49=BUYER|56=GATE|34=2|52=20260105-09:30:00.000|11=A1|
frame 0 35=D|49=BUYER|56=GATE|34=3|52=20260105-09:30:00.000|11=A2|
finish 0
turn
turn
";

pub(crate) const DAILY_HEARTBEATS_REPORT: &str = "fixgate report 1
session 0 GATE BUYER owner 0 lease 0 in 2 out 1
 bind 0
 admin 1
 arrive 0
 arrive 1
 leave 0
 holding 0 0 from 0 start 0 end 2 sends 0
 in 0 35=D|49=BUYER|56=GATE|34=2|52=20260105-09:30:00.000|11=A1|
 in 1 35=D|49=BUYER|56=GATE|34=3|52=20260105-09:30:00.000|11=A2|
 out 1 20260105-09:30:00.000 35=A|98=0|108=86400|
connection 0 session 0 taken 250 garbled 0 written 89 cause end
 wrote 8=FIX.4.4|9=67|35=A|49=GATE|56=BUYER|34=1|52=20260105-09:30:00.000|98=0|108=86400|10=054|
library 1 reads 0
end
";
