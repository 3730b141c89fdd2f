// A linear congruential generator.
ghost use Rattle.std.specs.Prelude.{◌≡◌};
ghost use Rattle.work_gen.specs.Draws.{next_state, drawn};

#[derive(Clone, Copy)]
pub(crate) struct Generator {
    pub(crate) state: u32,
}

impl Generator {
    // The next number, from 0 to 65,535.
    #[tactic(auto, unfolding(crate::specs::Draws::next_state))]
    pub(crate) fn draw(&mut self) -> u16
        ensures state { self.new.state ≡ next_state self.old.state }
        ensures drawn { result ≡ drawn self.new.state }
    {
        let product = 1_103_515_245 * u64::from(self.state);
        self.state = ((product + 12_345) % (1 << 31)) as u32;
        (self.state >> 15) as u16
    }
}
