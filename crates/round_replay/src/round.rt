//! The line of a round: what it asks for, and how its answer is printed.
use super::session::{Session, print_changes};
use rounds::silence_weighting::LentPath;
use rounds::trigger::{LentUtterance, LentVoices};
use rounds::trigger_steps::{Halt, RoundEnd};
use script::{Held, Item, Words, front, lend, not_here, print, print_list};
use std::io::{self, Write};

/// What a line asks of a round.
#[derive(Drop)]
pub(crate) struct Asked<'a> {
    pub(crate) utterance: LentUtterance<'a>,
    pub(crate) delta_frames: &'a mut [usize],
    pub(crate) delta_weights: &'a mut [f32],
    pub(crate) out: &'a mut [u32],
    pub(crate) voices: LentVoices<'a>,
}

/// Prints how a round ended; the changes, where step 4 was done; the vector, where step 6 was.
fn print_round(
    writer: &mut impl Write,
    end: Result<RoundEnd, Halt>,
    n: usize,
    frames: &[usize],
    weights: &[f32],
    vector: &[u32],
) -> io::Result<()> {
    let last_step = match end {
        Ok(RoundEnd::Full(Some(voice))) => {
            let index = voice.index;
            write!(writer, "4 {index}")?;
            print(writer, voice.distance)?;
            7
        }
        Ok(RoundEnd::Full(None)) => {
            write!(writer, "3")?;
            7
        }
        Ok(RoundEnd::NoVector) => {
            write!(writer, "2")?;
            5
        }
        Err(Halt { refusal, step }) => {
            write!(writer, "1 {refusal} {step}")?;
            step
        }
    };
    if 4 < last_step {
        print_changes(writer, n, frames, weights)?;
    }
    if 6 < last_step {
        print_list(writer, vector)?;
    }
    writeln!(writer)
}

impl<'a> Session<'a> {
    /// `u start nf x.. np p.. ns s.. ne e.. lf lw M K nv v.. limit`
    pub(crate) fn round(
        &mut self,
        writer: &mut impl Write,
        words: &mut Words<'_>,
    ) -> io::Result<()> {
        let Held::Stream(mut stream) = self.told else {
            return not_here(writer);
        };
        let Some(mut silence) = self.told_table else {
            return not_here(writer);
        };
        let mut numbers = [0.0f32; 64];
        let mut phones = [0i32; 64];
        let mut starts = [0usize; 64];
        let mut ends = [0usize; 64];
        let mut delta_frames = [0usize; 2048];
        let mut delta_weights = [0.0f32; 2048];
        let mut out = [0u32; 16];
        let mut enrolled = [0u32; 256];
        let start = words.number(10);
        let numbers = words.list(&mut numbers);
        let phones = words.list(&mut phones);
        let starts = words.list(&mut starts);
        let ends = words.list(&mut ends);
        let frames_lent = words.number(10);
        let weights_lent = words.number(10);
        let out_lent = words.number(10);
        let voices = words.number(10);
        let enrolled = words.list(&mut enrolled);
        let limit = f32::read(words);
        let round = self.call_round(
            &mut stream,
            &mut silence,
            Asked {
                utterance: LentUtterance {
                    start,
                    numbers,
                    path: LentPath {
                        phones,
                        starts,
                        ends,
                    },
                },
                delta_frames: lend(&mut delta_frames, frames_lent),
                delta_weights: lend(&mut delta_weights, weights_lent),
                out: lend(&mut out, out_lent),
                voices: LentVoices {
                    count: voices,
                    enrolled,
                    limit,
                },
            },
        );
        print_round(
            writer,
            round.result,
            round.changes,
            &delta_frames,
            &delta_weights,
            front(&out, out_lent),
        )?;
        self.after_round(stream, silence);
        Ok(())
    }
}
