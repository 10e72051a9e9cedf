// The judge: where the sentence of a file holds, and how deep it is.
ghost use Rattle.std.specs.Prelude.{◌≡◌, ◌≤◌, true, List, length, Ok, Err};
ghost use Rattle.theory.specs.Sentences.{Line as SentenceLine, well_formed};
ghost use Rattle.logic.specs.File.{lines_in, sentence_file};
ghost use Rattle.logic.specs.Judging.{JudgedSoundly, answered, counted, judged, verdict, words_after};
ghost use Rattle.logic.specs.Writing.{fits_file, sentence_bytes};

use crate::fault::{JudgeFault, Verdict};
use crate::format::{LINES, SentenceField};
use crate::line::Line;
use crate::sets::Sets;
use arrayvec::ArrayVec;
use fields::fault::{FileFault, Flaw};
use fields::file::Fields;
use model::source::Source;

/// Judges the sentence of a file: answers where it holds and its depth, and leaves the set of line i in word i - 1; words
/// behind those of the lines stay. Refuses, in this order, a void source, a file with a fault, and fewer words than lines;
/// a refusal changes no word.
#[tactic(auto, using(crate::proofs::Outcomes::written_read))]
pub fn judge<S: Source>(source: &S, bytes: &[u8], words: &mut [u64]) -> Result<Verdict, JudgeFault>
    ensures answer { result ≡ answered (S.meaning source.now)
        (judged (S.meaning source.now) bytes.now (length words.old)) }
    ensures after { words.new ≡ words_after (S.meaning source.now)
        (judged (S.meaning source.now) bytes.now (length words.old)) words.old }
    ensures sound { JudgedSoundly (S.meaning source.now) bytes.now words.new result }
    ensures written { (ls : List SentenceLine) → well_formed ls ≡ true → fits_file ls ≡ true
        → bytes.now ≡ sentence_bytes ls → sentence_file bytes.now ≡ Ok ls }
{
    if source.states() == 0 {
        return Err(JudgeFault::Void);
    }
    let lines = count_lines(bytes)?;
    if words.len() < lines {
        return Err(JudgeFault::Words);
    }
    Ok(evaluate(source, bytes, words)?)
}

/// The number of lines of a sentence file.
fn count_lines(bytes: &[u8]) -> Result<usize, FileFault>
    ensures { result ≡ counted (sentence_file bytes.now) }
{
    if bytes.is_empty() {
        return Err(FileFault::from(Flaw::Short.at(0)));
    }
    let mut count = 0;
    for (before, field) in Fields::of(SentenceField, bytes).enumerate() {
        Line::read(&field?, before)?;
        count = before + 1;
    }
    Ok(count)
}

/// Goes through the lines of a sound file: writes the word of each, and answers the last one's with its depth.
fn evaluate<S: Source>(source: &S, bytes: &[u8], words: &mut [u64]) -> Result<Verdict, FileFault>
    requires { (ls : List SentenceLine) × (lines_in bytes.now ≡ Ok ls) × (length ls ≤ length words.old) }
    ensures { (ls : List SentenceLine) → lines_in bytes.now ≡ Ok ls
        → (result ≡ Ok (verdict (S.meaning source.now) ls))
        × (words.new ≡ words_after (S.meaning source.now) (Ok ls) words.old) }
{
    let mut depths = ArrayVec::<u16, LINES>::new();
    let mut last = Verdict { set: 0, depth: 0 };
    // The words go by index, since each line is judged from those in front of its own; to split them there (`split_at_mut`)
    // would take an index too.
    for (before, field) in Fields::of(SentenceField, bytes).enumerate() {
        let line = Line::read(&field?, before)?;
        last = Verdict {
            set: Sets::new(source, &words[0..before]).of_line(line),
            depth: line.depth(depths.as_slice()),
        };
        words[before] = last.set;
        depths.push(last.depth);
    }
    Ok(last)
}
