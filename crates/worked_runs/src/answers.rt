//! What a client is told of messages that no command of the program is answered with.
use plant_client::tell;
use std::test::Fail;

#[test]
fn notices_and_errors(rt: HostRuntime) -> Result<(), Fail> {
    let alloc = rt.alloc();
    let mut text = tell(alloc, b"\x20\x05\x00\x0c\x0c\x10\x00\x08\x00\x00\x01\x02")?;
    let error = tell(alloc, b"\x20\x06\x00\x0c\x0d\x10\x00\x08\x00\x00\x0d\x01")?;
    text.extend_from_slice(&error)?;
    // a Keepalive, and a message that is cut off, tell nothing
    text.extend_from_slice(&tell(alloc, b"\x20\x02\x00\x04")?)?;
    text.extend_from_slice(&tell(alloc, b"\x20\x05\x00\x0c\x0c\x10\x00\x08")?)?;
    assert_eq!(rt; text.as_slice(), b"notice 1 2\nerror 13 1\n".as_slice());
    Ok(())
}
