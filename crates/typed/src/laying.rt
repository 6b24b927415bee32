// A round that is laid out.
ghost use Rattle.std.specs.Prelude.{◌≡◌, ◌-◌, map, length, Some, None, MatchResult};
ghost use Rattle.run.specs.Values.{kind_of, stated};
ghost use Rattle.protocol.specs.Calls.{moved, answered, Still};
ghost use Rattle.round.specs.Rounds.{put_says, start_says, started};

use crate::in_play::InPlay;
use crate::stub::Stub;
use protocol::Refusal;
use round::Round;
use value::Value;

// A number beside a record that is to be in the laying phase.
#[derive(Drop)]
pub struct Laying {
    pub(crate) number: u32,
}

// What a start gives: the round in play, its stub, and the tries left.
pub struct Started {
    pub play: InPlay,
    pub stub: Stub,
    pub tries: u32,
}

impl Laying {
    // The round of this number.
    pub fn of(number: u32) -> Laying
        ensures { result.number ≡ number }
    {
        Laying { number }
    }

    // Each phase has this for itself, since the phases are two types.
    pub fn number(&self) -> u32
        ensures { result ≡ self.now.number }
    {
        self.number
    }

    // Puts a literal into a setter's cell that is not marked.
    pub fn put<V: Value>(
        &self,
        round: &Round,
        setter: &mut [V],
        cell: usize,
        number: u32,
    ) -> Result<(), Refusal>
        ensures answer { result ≡ answered (put_says V.Value round.now.at (length setter.old) cell) tt }
        ensures after { map V.Value.meaning setter.new ≡ moved (put_says V.Value round.now.at (length setter.old) cell) (stated (kind_of V.Value) cell number (map V.Value.meaning setter.old)) (map V.Value.meaning setter.old) }
        ensures still { Still (put_says V.Value round.now.at (length setter.old) cell) setter.old setter.new }
    {
        round::put(round, setter, cell, number)
    }

    // Takes a try and begins a run; a refused start gives the round back.
    pub fn start<V: Value>(
        self,
        round: &mut Round,
        setter: &[V],
        working: &mut [V],
    ) -> Result<Started, (Laying, Refusal)>
        ensures answer { MatchResult result (λ s. (start_says V.Value round.old.at (length setter.now) (length working.old) ≡ None) × (s.play.number ≡ self.number) × (s.stub.number ≡ self.number) × (s.tries ≡ round.old.at.tries - 1)) (λ e. (start_says V.Value round.old.at (length setter.now) (length working.old) ≡ Some e.1) × (e.0 ≡ self)) }
        ensures after { round.new.at ≡ moved (start_says V.Value round.old.at (length setter.now) (length working.old)) (started round.old.at) round.old.at }
        ensures cells { working.new ≡ moved (start_says V.Value round.old.at (length setter.now) (length working.old)) setter.now working.old }
    {
        match round::start(round, setter, working) {
            Ok(tries) => {
                let Laying { number: own } = self;
                Ok(Started {
                    play: InPlay { number: own },
                    stub: Stub { number: own },
                    tries,
                })
            }
            Err(refusal) => Err((self, refusal)),
        }
    }
}
