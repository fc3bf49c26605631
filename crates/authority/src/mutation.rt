// The mutation authority, 16 bytes: the last completed generation, and the claim in flight.
ghost use Rattle.std.specs.Prelude.{refl, ◌≡◌, [], ◌∷◌};
ghost use Rattle.codec.specs.Answers.{Builds};
ghost use Rattle.authority.specs.Mutation.{mutation_codec};

use codec::{Record, Refusal};

// Generation and claim; a claim of 0 is none.
#[derive(Clone, Copy, PartialEq, Eq)]
pub struct FenceMutationAuthority {
    pub generation: u64,
    pub in_flight_claim: u64,
}

impl FenceMutationAuthority {
    // Before the first generation.
    pub fn initial() -> FenceMutationAuthority
        ensures { Builds mutation_codec (0 ∷ 0 ∷ []) (Ok result) }
    {
        FenceMutationAuthority {
            generation: 0,
            in_flight_claim: 0,
        }
    }

    // A generation and the claim in flight, or 2 where the claim is neither 0 nor the next generation.
    pub fn new(generation: u64, in_flight_claim: u64) -> Result<FenceMutationAuthority, Refusal>
        ensures { Builds mutation_codec (generation ∷ in_flight_claim ∷ []) result }
    {
        FenceMutationAuthority {
            generation,
            in_flight_claim,
        }
        .if_sound()
    }

    // The last completed generation.
    pub fn generation(self) -> u64
        ensures { result ≡ self.generation }
    {
        self.generation
    }

    // The claim in flight, or 0.
    pub fn in_flight_claim(self) -> u64
        ensures { result ≡ self.in_flight_claim }
    {
        self.in_flight_claim
    }
}

impl Record for FenceMutationAuthority {
    ghost codec = { mutation_codec };

    const LEN: usize = 16;

    ghost LEN = { 16 };

    ghost sized = { refl };

    ghost counted = { λ v. refl };

    fn blank() -> FenceMutationAuthority {
        FenceMutationAuthority::initial()
    }

    // A claim is the one after the generation; nothing is after the last.
    fn is_sound(self) -> bool {
        let generation = self.generation;
        let claim = self.in_flight_claim;
        claim == 0 || claim - 1 == generation
    }

    fn read(s: &[u8]) -> Result<FenceMutationAuthority, Refusal> {
        let generation = octets::get_le::<u64>(s, 0);
        let claim = octets::get_le::<u64>(s, 8);
        FenceMutationAuthority::new(generation, claim)
    }

    fn write(self, out: &mut [u8]) {
        octets::put_le::<u64>(out, 0, self.generation);
        octets::put_le::<u64>(out, 8, self.in_flight_claim);
    }
}
