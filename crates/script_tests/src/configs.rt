//! What a script configures.

use crate::checks::{holds, same};
use script_text::read_script;
use std::test::Fail;

#[test]
fn the_configuration_without_a_line(rt: HostRuntime) -> Result<(), Fail> {
    let script = read_script(rt.alloc(), b"", false)?;
    let config = script.config;
    same(&rt, &config.names.as_slice().len(), &0);
    same(
        &rt,
        &(config.libraries, config.connections, config.dials),
        &(0, 0, 1_024),
    );
    same(
        &rt,
        &(config.leases, config.sends, config.asks),
        &(16_777_215, 4_294_967_295, 4_294_967_295),
    );
    same(
        &rt,
        &(config.lane, config.timeout, config.hold),
        &(16, 5_000, 1_000),
    );
    Ok(())
}

#[test]
fn of_several_lines_for_one_number_the_last_counts(rt: HostRuntime) -> Result<(), Fail> {
    let text = b"option lane 1\nlibraries 3\noption leases 7\nsession A B\noption sends 8\n\
        option asks 9\noption timeout 10\noption lane 00000000000000000002\nlibraries 16\n\
        session A C\noption hold 11\noption hold 3600000\n#turn\n\nturn\n";
    let script = read_script(rt.alloc(), text, false)?;
    let config = script.config;
    same(&rt, &(config.libraries, config.lane), &(16, 2));
    same(&rt, &(config.leases, config.sends, config.asks), &(7, 8, 9));
    same(&rt, &(config.timeout, config.hold), &(10, 3_600_000));
    same(&rt, &script.session_lines.as_slice(), &[4, 10].as_slice());
    same(&rt, &script.step_lines.as_slice(), &[15].as_slice());
    let [first, second] = config.names.as_slice() else {
        holds(&rt, false, &"two sessions");
        return Ok(());
    };
    same(
        &rt,
        &(first.us.as_slice(), first.them.as_slice()),
        &(b"A".as_slice(), b"B".as_slice()),
    );
    same(
        &rt,
        &(second.us.as_slice(), second.them.as_slice()),
        &(b"A".as_slice(), b"C".as_slice()),
    );
    Ok(())
}
