//! A program over typed ports: a client asks for numbers of bytes, and a server answers with them.
#![tactic(auto)]

mod ports;

use ports::{ports, round_trip, service};
use std::io;

fn main(rt: HostRuntime) -> io::Result<()> {
    let Ok(mut hub) = service(rt.alloc()) else {
        return println!(rt; "no memory");
    };
    let Some((client, server)) = ports(rt.alloc(), &mut hub) else {
        return println!(rt; "no ports");
    };
    let three = round_trip(&mut hub, &client, &server, 3);
    let five = round_trip(&mut hub, &client, &server, 5);
    let nine = round_trip(&mut hub, &client, &server, 9);
    client.release(&mut hub);
    server.release(&mut hub);
    for (number, heard) in [(3, three), (5, five), (9, nine)] {
        match heard {
            Some(sum) => println!(rt; "{number} bytes were heard, their sum is {sum}")?,
            None => println!(rt; "of {number} bytes nothing was heard")?,
        }
    }
    Ok(())
}
