//! A list of calls as `run_calls` takes it, gathered line by line. Its answers are printed from
//! where they were written.
use definition::StreamAnswer;
use lists::run_calls::CallList;
use script::{Words, front, print_answer, print_list};
use std::alloc::{AllocError, Global};
use std::io::{self, Write};

/// The calls so far, and how many numbers their vectors take.
#[derive(Drop)]
pub(crate) struct Calls {
    kinds: Vec<u8>,
    numbers: Vec<usize>,
    lists: Vec<usize>,
    samples: Vec<f32>,
    outs: usize,
}

/// The number of a fetch's kind.
const FETCH: u8 = 4;

impl Calls {
    pub(crate) fn new(alloc: Global) -> Calls {
        Calls {
            kinds: Vec::new(alloc),
            numbers: Vec::new(alloc),
            lists: Vec::new(alloc),
            samples: Vec::new(alloc),
            outs: 0,
        }
    }

    pub(crate) fn clear(&mut self) {
        self.kinds.clear();
        self.numbers.clear();
        self.lists.clear();
        self.samples.clear();
        self.outs = 0;
    }

    pub(crate) fn len(&self) -> usize {
        self.kinds.len()
    }

    pub(crate) fn outs(&self) -> usize {
        self.outs
    }

    pub(crate) fn lent(&self) -> CallList<'_> {
        CallList {
            kinds: &self.kinds,
            numbers: &self.numbers,
            lists: &self.lists,
            samples: &self.samples,
        }
    }

    fn add(&mut self, kind: u8, numbers: [usize; 4]) -> Result<(), AllocError> {
        self.kinds.push(kind)?;
        self.numbers.extend_from_slice(&numbers)
    }

    /// Adds the call of a line. A list that is longer than its room here is longer than any frame
    /// or any change.
    pub(crate) fn read(&mut self, letter: u8, words: &mut Words<'_>) -> Result<(), AllocError> {
        match letter {
            b'p' => {
                let mut frame = [0.0f32; 128];
                let from = self.samples.len();
                self.samples.extend_from_slice(words.list(&mut frame))?;
                let to = self.samples.len();
                self.add(0, [from, to, 0, 0])
            }
            b'f' => self.add(1, [0; 4]),
            b'w' => {
                let mut frames = [0usize; 1026];
                let mut weights = [0.0f32; 1026];
                let from = self.lists.len();
                let weights_from = self.samples.len();
                self.lists.extend_from_slice(words.list(&mut frames))?;
                self.samples.extend_from_slice(words.list(&mut weights))?;
                let to = self.lists.len();
                let weights_to = self.samples.len();
                let numbers = [from, to, weights_from, weights_to];
                self.add(2, numbers)
            }
            b'd' => self.add(3, [words.number(10), 0, 0, 0]),
            b'n' => self.add(5, [words.number(10), 0, 0, 0]),
            _ => {
                let frame = words.number(10);
                let n = words.number(10);
                let from = self.outs;
                // an output that is longer than 160 is longer than any vector
                let to = from.saturating_add(n.min(160));
                self.outs = to;
                self.add(FETCH, [frame, from, to, 0])
            }
        }
    }

    /// The line of each answer. A fetch that was taken has its counts and its vector.
    pub(crate) fn print(
        &self,
        writer: &mut impl Write,
        answers: &[usize],
        outs: &[u32],
    ) -> io::Result<()> {
        for ((kind, numbers), answer) in self
            .kinds
            .iter()
            .zip(self.numbers.chunks_exact(4))
            .zip(answers.chunks_exact(5))
        {
            let answer = StreamAnswer {
                refusal: answer[0],
                frames_held: answer[1],
                rows_held: answer[2],
                not_finite: answer[3],
                nan_likelihoods: answer[4],
            };
            print_answer(writer, answer)?;
            if *kind == FETCH && answer.refusal == 0 {
                let not_finite = answer.not_finite;
                let nans = answer.nan_likelihoods;
                write!(writer, " {not_finite} {nans}")?;
                let to = numbers.get(2).copied().unwrap_or(0).min(outs.len());
                let from = numbers.get(1).copied().unwrap_or(0).min(to);
                print_list(writer, &outs[from..to])?;
            }
            writeln!(writer)?;
        }
        Ok(())
    }
}
