//! Whole reports, as they are to be.

/// One connection that brings two orders, and ends.
pub const TWO_ORDERS: &str = "fixgate report 1
session 0 GATE BUYER owner 0 lease 0 in 2 out 1
 bind 0
 admin 1
 arrive 0
 arrive 1
 leave 0
 holding 0 0 from 0 start 0 end 2 sends 0
 in 0 35=D|49=BUYER|56=GATE|34=2|52=20260105-09:30:00.000|11=A1|
 in 1 35=D|49=BUYER|56=GATE|34=3|52=20260105-09:30:00.000|11=A2|
 out 1 20260105-09:30:00.000 35=A|98=0|108=30|
connection 0 session 0 taken 246 garbled 0 written 86 cause end
 wrote 8=FIX.4.4|9=64|35=A|49=GATE|56=BUYER|34=1|52=20260105-09:30:00.000|98=0|108=30|10=148|
library 1 reads 0
end
";

/// A library that is refused, granted, and granted again.
pub const GRANTED_TWICE: &str = "fixgate report 1
session 0 GATE BUYER owner 1 lease 2 in 2 out 1
 bind 0
 admin 1
 arrive 0
 arrive 1
 refused 1 1 missing-messages 3 2
 granted 1 2 lease 1 from 0 start 2
 release 1 1 0
 granted 1 3 lease 2 from 2 start 2
 holding 0 0 from 0 start 0 end 2 sends 0
 holding 1 1 from 0 start 2 end 2 sends 0
 holding 0 0 from 2 start 2 end 2 sends 0
 holding 1 2 from 2 start 2 end 2 sends 0
 in 0 35=D|49=BUYER|56=GATE|34=2|52=20260105-09:30:00.000|11=A1|
 in 1 35=D|49=BUYER|56=GATE|34=3|52=20260105-09:30:00.000|11=A2|
 out 1 20260105-09:30:00.000 35=A|98=0|108=30|
connection 0 session 0 taken 246 garbled 0 written 86 cause none
 wrote 8=FIX.4.4|9=64|35=A|49=GATE|56=BUYER|34=1|52=20260105-09:30:00.000|98=0|108=30|10=148|
library 1 reads 2
 request 0 3: asked 1
 poll: refused 1 0 missing-messages 3 2
 request 0 0: asked 2
 poll: granted 2 0 lease 1 from 0 start 2
 poll: message 0 lease 1 pos 0 35=D|49=BUYER|56=GATE|34=2|52=20260105-09:30:00.000|11=A1|
 poll: message 0 lease 1 pos 1 35=D|49=BUYER|56=GATE|34=3|52=20260105-09:30:00.000|11=A2|
 release 0: released 1 0
 request 0 2: asked 3
 poll: granted 3 0 lease 2 from 2 start 2
 poll: nothing
library 2 reads 0
end
";

/// Two libraries that ask for one session.
pub const TWO_LIBRARIES: &str = "fixgate report 1
session 0 GATE BUYER owner 2 lease 2 in 0 out 1
 bind 0
 admin 1
 granted 1 1 lease 1 from 0 start 0
 refused 2 1 other-owner 1 1
 release 1 1 0
 granted 2 2 lease 2 from 0 start 0
 holding 0 0 from 0 start 0 end 0 sends 0
 holding 1 1 from 0 start 0 end 0 sends 0
 holding 0 0 from 0 start 0 end 0 sends 0
 holding 2 2 from 0 start 0 end 0 sends 0
 out 1 20260105-09:30:00.000 35=A|98=0|108=30|
connection 0 session 0 taken 86 garbled 0 written 86 cause none
 wrote 8=FIX.4.4|9=64|35=A|49=GATE|56=BUYER|34=1|52=20260105-09:30:00.000|98=0|108=30|10=148|
library 1 reads 0
 request 0 0: asked 1
 poll: granted 1 0 lease 1 from 0 start 0
 release 0: released 1 0
library 2 reads 0
 request 0 0: asked 1
 poll: refused 1 0 other-owner 1 1
 request 0 0: asked 2
 poll: granted 2 0 lease 2 from 0 start 0
end
";

/// A library that falls silent behind its first message, and one that goes on behind that.
pub const TAKEN_BACK: &str = "fixgate report 1
session 0 GATE BUYER owner 2 lease 2 in 3 out 1
 bind 0
 admin 1
 granted 1 1 lease 1 from 0 start 0
 arrive 0
 arrive 1
 arrive 2
 timeout 1 1 0
 granted 2 1 lease 2 from 1 start 3
 holding 0 0 from 0 start 0 end 0 sends 0
 holding 1 1 from 0 start 0 end 3 sends 0
 holding 0 0 from 3 start 3 end 3 sends 0
 holding 2 2 from 1 start 3 end 3 sends 0
 in 0 35=D|49=BUYER|56=GATE|34=2|52=20260105-09:30:00.000|11=A1|
 in 1 35=D|49=BUYER|56=GATE|34=3|52=20260105-09:30:00.000|11=A2|
 in 2 35=D|49=BUYER|56=GATE|34=4|52=20260105-09:30:00.000|11=A3|
 out 1 20260105-09:30:00.000 35=A|98=0|108=30|
connection 0 session 0 taken 326 garbled 0 written 86 cause none
 wrote 8=FIX.4.4|9=64|35=A|49=GATE|56=BUYER|34=1|52=20260105-09:30:00.000|98=0|108=30|10=148|
library 1 reads 1
 request 0 0: asked 1
 poll: granted 1 0 lease 1 from 0 start 0
 poll: message 0 lease 1 pos 0 35=D|49=BUYER|56=GATE|34=2|52=20260105-09:30:00.000|11=A1|
library 2 reads 2
 request 0 1: asked 1
 poll: granted 1 0 lease 2 from 1 start 3
 poll: message 0 lease 2 pos 1 35=D|49=BUYER|56=GATE|34=3|52=20260105-09:30:00.000|11=A2|
 poll: message 0 lease 2 pos 2 35=D|49=BUYER|56=GATE|34=4|52=20260105-09:30:00.000|11=A3|
end
";

/// A session that is handed to another library, while a third one asks for it.
pub const HANDED_ON: &str = "fixgate report 1
session 0 GATE BUYER owner 2 lease 2 in 0 out 0
 granted 1 1 lease 1 from 0 start 0
 hand 1 1 0 2
 hold 1 20260105-09:30:02.000
 refused 3 1 reserved 2 20260105-09:30:02.000
 granted 2 1 lease 2 from 0 start 0
 holding 0 0 from 0 start 0 end 0 sends 0
 holding 1 1 from 0 start 0 end 0 sends 0
 holding 0 0 from 0 start 0 end 0 sends 0
 holding 2 2 from 0 start 0 end 0 sends 0
library 1 reads 0
 request 0 0: asked 1
 poll: granted 1 0 lease 1 from 0 start 0
 hand 0 2: handed 1 0
library 2 reads 0
 request 0 0: asked 1
 poll: granted 1 0 lease 2 from 0 start 0
library 3 reads 0
 request 0 0: asked 1
 poll: refused 1 0 reserved 2 20260105-09:30:02.000
end
";

/// A session that dials, and whose Logon is answered with another HeartBtInt (108).
pub const DIALLED: &str = "fixgate report 1
session 0 GATE HUB owner 0 lease 0 in 0 out 1
 bind 1024
 admin 1
 leave 1024
 holding 0 0 from 0 start 0 end 0 sends 0
 out 1 20260105-09:30:00.000 35=A|98=0|108=30|
connection 1024 session 0 taken 84 garbled 0 written 84 cause bad-logon 108
 wrote 8=FIX.4.4|9=62|35=A|49=GATE|56=HUB|34=1|52=20260105-09:30:00.000|98=0|108=30|10=234|
end
";
