//! A turn of the engine, step by step.

use crate::world::World;
use gate_io::NoMemory;

impl World {
    pub(crate) fn turn(&mut self) -> Result<(), NoMemory> {
        self.moment = self.moment.max(self.clock);
        self.accept();
        for s in 0..self.sessions.len() {
            self.dial(s)?;
        }
        self.read_all()?;
        for s in 0..self.sessions.len() {
            self.tick(s)?;
        }
        for place in 0..self.libraries.len() {
            self.serve(place)?;
        }
        self.write_all()
    }

    /// The connections that came and aren't closed: the accepted ones, and behind them the dialled ones.
    fn open_links(&self) -> Result<Vec<usize>, NoMemory> {
        let mut open = Vec::new(self.alloc);
        for dialled in [false, true] {
            for (c, link) in self.links.iter().enumerate() {
                if link.came && !link.closed && link.is_dialled() == dialled {
                    open.push(c)?;
                }
            }
        }
        Ok(open)
    }

    fn read_all(&mut self) -> Result<(), NoMemory> {
        for c in &self.open_links()? {
            self.read(*c)?;
        }
        Ok(())
    }

    fn write_all(&mut self) -> Result<(), NoMemory> {
        for c in &self.open_links()? {
            self.write(*c)?;
        }
        Ok(())
    }

    /// A session hears the clock.
    fn tick(&mut self, s: usize) -> Result<(), NoMemory> {
        self.gather(s)?;
        if let Some(session) = self.sessions.get_mut(s) {
            session.lapse(self.moment)?;
            session.tick(self.moment)?;
        }
        self.settle(s)
    }

    /// The last gathering, behind the last line.
    pub(crate) fn finish(&mut self) -> Result<(), NoMemory> {
        for s in 0..self.sessions.len() {
            self.gather(s)?;
        }
        Ok(())
    }
}
