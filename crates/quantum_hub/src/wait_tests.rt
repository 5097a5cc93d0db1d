// Calls that wait.
ghost use Rattle.std.specs.Prelude.{◌≡◌};

use crate::hub::Hub;
use crate::site::{Seat, Site, plain, remote};
use commit_journal::Framed;
use cqc_model::{Fault, Instr};
use history_front::Named;
use network_model::CoreReply;
use qron_link::{CountPatience, EmptyAt, Patience};
use std::alloc::Global;
use std::process::Abort;
use std::sync::Wait;
use std::test::*;

/// A receipt gives up after four asks and five looks. Once a qubit was sent, one finds it and asks nothing.
pub(crate) fn gives_up<N: Named + Framed, R: Wait + Abort>(
    rt: &R,
    mut site: Site<N>,
) -> Result<(), Fail> {
    let mut patience = CountPatience::new(site.alloc, 3)?;
    let (mut receiver, mut sender) = site.two_seats()?;
    let receipt = plain(0, 0, Instr::Recv);
    let timeout = receiver.ask_with(rt, site.alloc, &site.hub, receipt, &mut patience);
    assert_eq!(rt; timeout, Some(CoreReply::Error(Fault::Timeout)));
    assert_eq!(rt; patience.asked(), 4);
    let new = sender.ask(rt, site.alloc, &site.hub, plain(1, 0, Instr::New));
    assert_eq!(rt; new, Some(CoreReply::New(0)));
    let sent = sender.ask(
        rt,
        site.alloc,
        &site.hub,
        plain(1, 0, Instr::Send(remote(0))),
    );
    assert_eq!(rt; sent, Some(CoreReply::Silent));
    let received = receiver.ask_with(rt, site.alloc, &site.hub, receipt, &mut patience);
    assert_eq!(rt; received, Some(CoreReply::Received(0)));
    assert_eq!(rt; patience.asked(), 4);
    site.close_two(rt, (receiver.pass, sender.pass), 4)
}

// Patience that has a qubit sent by another seat, and then goes on, the first time that it is asked.
#[derive(Drop)]
struct Sending<'a, N: Named + Framed, R> {
    rt: &'a R,
    alloc: Global,
    hub: &'a Hub<N>,
    sender: Seat<N>,
    more: u32,
    gave_up: u64,
    asked: u32,
}

impl<'a, N: Named + Framed, R: Wait> Patience for Sending<'a, N, R> {
    ghost use Rattle.std.specs.Prelude.{None, ⊤};

    ghost times = { λ _. 9 };

    ghost more = { λ p. p.more };

    ghost gave_up = { λ p. p.gave_up };

    ghost may_ask = { λ _. ⊤ };

    ghost shown = { λ _. None };

    fn start(&mut self) {
        self.more = 9;
    }

    fn again(&mut self, _seen: EmptyAt) -> bool {
        self.asked = self.asked.saturating_add(1);
        if self.more == 0 {
            self.gave_up = self.gave_up.saturating_add(1);
            return false;
        }
        self.more -= 1;
        let send = plain(1, 0, Instr::Send(remote(0)));
        let _sent = self.sender.ask(self.rt, self.alloc, self.hub, send);
        true
    }
}

/// A qubit that arrives while a receipt waits is received at the next look.
pub(crate) fn sends_while_waiting<N: Named + Framed, R: Wait + Abort>(
    rt: &R,
    mut site: Site<N>,
) -> Result<(), Fail> {
    let (mut receiver, mut sender) = site.two_seats()?;
    let new = sender.ask(rt, site.alloc, &site.hub, plain(1, 0, Instr::New));
    assert_eq!(rt; new, Some(CoreReply::New(0)));
    let mut patience = Sending {
        rt,
        alloc: site.alloc,
        hub: &site.hub,
        sender,
        more: 0,
        gave_up: 0,
        asked: 0,
    };
    let receipt = plain(0, 0, Instr::Recv);
    let received = receiver.ask_with(rt, site.alloc, &site.hub, receipt, &mut patience);
    assert_eq!(rt; received, Some(CoreReply::Received(0)));
    assert_eq!(rt; patience.asked, 1);
    assert_eq!(rt; patience.gave_up, 0);
    Ok(())
}
