// A worked sentence.
ghost use Rattle.std.specs.Prelude.{◌≡◌, [], ◌∷◌, map, Ok};
ghost use Rattle.theory.specs.Sentences.{depth, sets_of};
ghost use Rattle.logic.specs.File.{sentence_file};
ghost use Rattle.logic.specs.Judging.{verdict};
ghost use Rattle.logic.specs.Words.{word};
ghost use Rattle.logic.specs.Worked.{fair_bytes, fair_lines, two_coins};
ghost use Rattle.logic.specs.Writing.{RoundTrips, sentence_bytes};

/// The file of the sentence that a step by action 1 leads, with at least half of its weight, to where action 1 is possible.
/// Of two coins it holds in the fair one, state 0, and not in the unfair one, state 2; its depth is 2.
pub fn fair_sentence() -> [u8; 43]
    ensures answer { result ≡ fair_bytes }
    ensures lines { sentence_file result ≡ Ok fair_lines }
    ensures written { sentence_bytes fair_lines ≡ result }
    ensures sets { map (word 4) (sets_of two_coins fair_lines) ≡ 5 ∷ 10 ∷ 5 ∷ 5 ∷ 1 ∷ 14 ∷ 1 ∷ [] }
    ensures verdict { verdict two_coins fair_lines ≡ record { set = 1; depth = 2 } }
{
    [
        0x14, 0, 1, 1, 0x11, 0, 2, 0, 1, 0x12, 0, 2, 0, 1, 0x13, 0, 2, 0, 3, 0x14, 0, 11, 1, 0, 4,
        0, 0, 0, 1, 0, 0, 0, 2, 0x11, 0, 2, 0, 5, 0x12, 0, 2, 0, 5,
    ]
}

/// Every well-formed sentence that fits a file reads back from its bytes.
pub fn sentences_read_back()
    ensures { RoundTrips }
{}
