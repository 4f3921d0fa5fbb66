//! The script of a number, once there is memory for it.

use pcm_soak::soak_script;
use std::test::Fail;

#[test]
fn the_script_of_seven(rt: HostRuntime) -> Result<(), Fail> {
    let script = soak_script(rt.alloc(), 7)?;
    let events = script.events.as_slice().len();
    let bytes = script.inline_bytes.as_slice().len();
    assert_eq!(rt;
        (events, bytes, script.device_frames),
        (20000, 8192, 644627)
    );
    Ok(())
}
