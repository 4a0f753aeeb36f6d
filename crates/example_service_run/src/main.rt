//! A program over a service: two nodes try to open it, and one is refused. Then a client asks for
//! the length of a text, and a server answers. Nodes die and are cleaned up, until the service is
//! closed. All of it is one list of commands.
#![tactic(auto)]

mod commands;
mod lengths;

use commands::commands;
use iceoryx2_wire::UniqueNodeId;
use lengths::{id, opener, service};
use std::io;

fn main(rt: HostRuntime) -> io::Result<()> {
    let alloc = rt.alloc();
    let (Some(of_bytes), Some(of_letters)) = (opener("bytes"), opener("letters")) else {
        return println!(rt; "no such attribute");
    };
    let Some(mut service) = service(alloc) else {
        return println!(rt; "no service");
    };
    let Ok(any) = UniqueNodeId::new(id(1)) else {
        return println!(rt; "no such node");
    };
    let Ok(commands) = commands(alloc, any, &of_bytes, &of_letters) else {
        return println!(rt; "no memory");
    };
    let mut replies = Vec::new(alloc);
    let ran = service.run(alloc, commands, &mut replies);
    for reply in replies.iter() {
        println!(rt; "{reply:?}")?;
    }
    match ran {
        Ok(()) => println!(rt; "closed: {}", service.is_closed()),
        Err(_) => println!(rt; "no memory for more"),
    }
}
