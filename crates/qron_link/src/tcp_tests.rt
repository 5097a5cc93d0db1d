// A connection of this machine with itself.
use super::*;
use std::io;

const LOCALHOST: u32 = 0x7f00_0001;

#[test]
fn a_byte_goes_each_way(rt: HostRuntime) -> io::Result<()> {
    let mut door = TcpDoor::bind(rt.alloc(), &rt, LOCALHOST, 0)?;
    let mut other = door.share()?;
    let port = door.port()?;
    let mut client = TcpLink::connect(rt.alloc(), &rt, LOCALHOST, port)?;
    let Knock::Link(mut server) = door.next() else {
        return Err(io::ErrorKind::NotConnected.into());
    };
    let mut room = [0; 4];
    // what is written is gathered until it is delivered, until a read waits, and until the end
    assert_eq!(rt; send_link(&mut client, &[7]), Ok(()));
    client.deliver();
    assert!(rt; matches!(read_link(&mut server, &mut room), Got::Bytes(1)));
    assert_eq!(rt; room[0], 7);
    assert_eq!(rt; send_link(&mut client, &[9]), Ok(()));
    client.deliver();
    assert_eq!(rt; send_link(&mut server, &[8]), Ok(()));
    assert!(rt; matches!(read_link(&mut server, &mut room), Got::Bytes(1)));
    assert_eq!(rt; room[0], 9);
    assert!(rt; matches!(read_link(&mut client, &mut room), Got::Bytes(1)));
    assert_eq!(rt; room[0], 8);
    assert_eq!(rt; send_link(&mut server, &[6]), Ok(()));
    server.close();
    assert!(rt; matches!(read_link(&mut client, &mut room), Got::Bytes(1)));
    assert_eq!(rt; room[0], 6);
    assert!(rt; matches!(read_link(&mut client, &mut room), Got::End));
    let second = TcpLink::connect(rt.alloc(), &rt, LOCALHOST, port)?;
    assert!(rt; matches!(other.next(), Knock::Link(_)));
    drop(second);
    Ok(())
}
