//! The views of one thread.

ghost use Rattle.std.specs.Prelude.{◌≡◌, ◌<◌, ◌≤◌, length, IfOk};
ghost use Rattle.pg_machine.specs.State.{coh_of, vpa_of, vpc_of, maxcoh, lcoh, fresh_views};
ghost use Rattle.pg_machine.specs.Moves.{store_seen, load_seen, mfence_seen, sfence_seen, flush_seen, flushopt_seen, swap_seen};

use crate::positions::{greatest, greatest_on, raise};
use std::alloc::{AllocError, Global};
use std::marker::Model;

/// The positions that a thread has seen, and those that it has made persistent.
#[derive(Drop)]
pub struct Views {
    coh: Vec<u32>,
    vrn: u32,
    vpr: u32,
    vpa: Vec<u32>,
    vpc: Vec<u32>,
}

impl Model for Views {
    ghost use Rattle.pg_machine.specs.State.{Views};

    ghost Value = { Views };

    ghost view = { λ w. record { coh = w.coh.items; vrn = w.vrn; vpr = w.vpr; vpa = w.vpa.items; vpc = w.vpc.items } };
}

impl Views {
    /// The views of a thread that has done nothing, over so many locations and lines.
    pub fn fresh(alloc: Global, locations: usize, lines: usize) -> Result<Views, AllocError>
        ensures { IfOk result (λ w. w ≡ fresh_views locations lines) }
    {
        Ok(Views {
            coh: vec![in alloc; 0; locations]?,
            vrn: 0,
            vpr: 0,
            vpa: vec![in alloc; 0; lines]?,
            vpc: vec![in alloc; 0; lines]?,
        })
    }

    /// The coherence view of a location.
    pub fn coh(&self, location: u8) -> u32
        requires { location < length self.now.coh }
        ensures { result ≡ coh_of self.now location }
    {
        self.coh[usize::from(location)]
    }

    /// The read view.
    pub fn vrn(&self) -> u32
        ensures { result ≡ self.now.vrn }
    {
        self.vrn
    }

    /// The ready view.
    pub fn vpr(&self) -> u32
        ensures { result ≡ self.now.vpr }
    {
        self.vpr
    }

    /// The asynchronous view of a line.
    pub fn vpa(&self, line: u8) -> u32
        requires { line < length self.now.vpa }
        ensures { result ≡ vpa_of self.now line }
    {
        self.vpa[usize::from(line)]
    }

    /// The committed view of a line.
    pub fn vpc(&self, line: u8) -> u32
        requires { line < length self.now.vpc }
        ensures { result ≡ vpc_of self.now line }
    {
        self.vpc[usize::from(line)]
    }

    /// The greatest coherence view.
    pub fn maxcoh(&self) -> u32
        ensures { result ≡ maxcoh self.now }
    {
        greatest(&self.coh)
    }

    /// The greatest coherence view of a location on a line, where each location has its line.
    pub fn lcoh(&self, lines: &[u8], line: u8) -> u32
        requires { length self.now.coh ≤ length lines.now }
        ensures { result ≡ lcoh lines.now self.now line }
    {
        greatest_on(lines, &self.coh, line)
    }

    /// A store to a location, whose message is at this position.
    pub fn store(&mut self, location: u8, position: u32)
        requires { location < length self.old.coh }
        ensures { self.new ≡ store_seen self.old location position }
    {
        self.coh[usize::from(location)] = position;
    }

    /// A load of a location at this position.
    pub fn load(&mut self, location: u8, position: u32)
        requires { location < length self.old.coh }
        ensures { self.new ≡ load_seen self.old location position }
    {
        let coh = self.coh[usize::from(location)];
        self.coh[usize::from(location)] = position;
        if position != coh {
            self.vrn = self.vrn.max(position);
            self.vpr = self.vpr.max(position);
        }
    }

    /// A full fence.
    pub fn mfence(&mut self)
        requires { length self.old.vpc ≡ length self.old.vpa }
        ensures { self.new ≡ mfence_seen self.old }
    {
        self.vrn = greatest(&self.coh);
        self.vpr = self.vrn;
        raise(&mut self.vpc, &self.vpa);
    }

    /// A store fence.
    pub fn sfence(&mut self)
        requires { length self.old.vpc ≡ length self.old.vpa }
        ensures { self.new ≡ sfence_seen self.old }
    {
        self.vpr = greatest(&self.coh);
        raise(&mut self.vpc, &self.vpa);
    }

    /// A flush of a line.
    pub fn flush(&mut self, line: u8)
        requires vpa { line < length self.old.vpa }
        requires vpc { line < length self.old.vpc }
        ensures { self.new ≡ flush_seen self.old line }
    {
        let l = usize::from(line);
        let most = greatest(&self.coh);
        self.vpa[l] = self.vpa[l].max(most);
        self.vpc[l] = self.vpc[l].max(most);
    }

    /// An optimised flush of a line, where each location has its line.
    pub fn flushopt(&mut self, lines: &[u8], line: u8)
        requires coh { length self.old.coh ≤ length lines.now }
        requires vpa { line < length self.old.vpa }
        ensures { self.new ≡ flushopt_seen lines.now self.old line }
    {
        let l = usize::from(line);
        let bound = greatest_on(lines, &self.coh, line).max(self.vpr);
        self.vpa[l] = self.vpa[l].max(bound);
    }

    /// A successful cas of a location, whose message is at this position.
    pub fn swap(&mut self, location: u8, position: u32)
        requires location { location < length self.old.coh }
        requires sizes { length self.old.vpc ≡ length self.old.vpa }
        ensures { self.new ≡ swap_seen self.old location position }
    {
        self.coh[usize::from(location)] = position;
        self.vrn = position;
        self.vpr = position;
        raise(&mut self.vpc, &self.vpa);
    }

    /// A failing cas of a location, which reads at this position.
    pub fn miss(&mut self, location: u8, position: u32)
        requires location { location < length self.old.coh }
        requires sizes { length self.old.vpc ≡ length self.old.vpa }
        ensures { self.new ≡ mfence_seen (load_seen (mfence_seen self.old) location position) }
    {
        self.mfence();
        self.load(location, position);
        self.mfence();
    }
}
