// A script whose input or output fails.
use scripts::play;
use std::io;
use std::io::{ErrorKind, Read};
use std::test::Fail;

// A reader that fails after some bytes.
#[derive(Drop)]
struct Broken<'a>(&'a [u8]);

impl Read for Broken<'_> {
    fn read(&mut self, buf: &mut [u8]) -> io::Result<usize> {
        if self.0.is_empty() {
            return Err(io::Error::from(ErrorKind::BrokenPipe));
        }
        self.0.read(buf)
    }
}

const STOPPED: &[u8] = b"pagedctl: stopped\n";

#[test]
fn a_failed_input_stops_a_script(rt: HostRuntime) -> Result<(), Fail> {
    let alloc = rt.alloc();
    let mut out = Vec::new(alloc);
    let mut err = Vec::new(alloc);
    let status = play(alloc, Broken(b"start 4 8 4 add\n"), &mut out, &mut err);
    assert!(rt; status == 1 && out.is_empty() && err.as_slice() == STOPPED);
    Ok(())
}

#[test]
fn an_output_with_no_room_stops_a_script(rt: HostRuntime) -> Result<(), Fail> {
    let alloc = rt.alloc();
    let mut room = [0u8; 15];
    let script: &[u8] = b"start 4 8 4 add\nsize\n";
    let mut err = Vec::new(alloc);
    let status = play(alloc, script, room.as_mut_slice(), &mut err);
    let wrote = room.as_slice() == b"recovered 0\nsiz".as_slice();
    assert!(rt; status == 1 && wrote && err.as_slice() == STOPPED);
    Ok(())
}
