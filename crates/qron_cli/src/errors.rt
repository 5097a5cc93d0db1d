// Where complaints are written.
use crate::complaint::Complaint;
use crate::detail::write_detail;
use network_model::Place;
use std::io::{self, Write};
use std::net::Ipv4Addr;

/// Where complaints are written: a line for each, and on a terminal a second one that says what was wrong. A terminal is
/// also told where nodes listen.
#[derive(Drop)]
pub struct Errors<E: Write + Drop> {
    pub out: E,
    pub is_terminal: bool,
}

impl<E: Write + Drop> Errors<E> {
    /// Writes a complaint. Where that fails nothing can be said.
    pub fn complain(&mut self, complaint: &Complaint) {
        let _ = self.try_complain(complaint);
    }

    /// Tells a terminal where a node listens.
    pub fn tell_listening(&mut self, node: u8, place: Place) {
        if self.is_terminal {
            let Place { address, port } = place;
            let address = Ipv4Addr::from_bits(address);
            let _ = writeln!(self.out, "node {node} listens at {address} port {port}");
        }
    }

    /// Tells a terminal that a place could not be had.
    pub fn tell_refused(&mut self, place: Place) {
        if self.is_terminal {
            let Place { address, port } = place;
            let address = Ipv4Addr::from_bits(address);
            let _ = writeln!(self.out, "no node can listen at {address} port {port}");
        }
    }

    fn try_complain(&mut self, complaint: &Complaint) -> io::Result<()> {
        let label = complaint.label();
        match complaint.line() {
            Some(line) => writeln!(self.out, "{label} {line}")?,
            None => writeln!(self.out, "{label}")?,
        }
        if self.is_terminal {
            write_detail(&mut self.out, complaint)?;
        }
        Ok(())
    }
}
