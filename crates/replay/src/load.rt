//! A model's files, as the text has them, and the dimensions of their model.
use definition::{Dimensions, Refusal};
use kaldi::kaldi_files::checks::{check_extractor, check_gmm, check_lda};
use kaldi::kaldi_io::reader::KaldiReader;
use kaldi::kaldi_text::check_cmvn;
use script::{Files, Words};

/// The bytes that there is room for, of the four files together.
pub(crate) const FILE_BYTES: usize = 262144;

/// The bytes of a file, which the text has as `N HEX`: as many as a room has places for, 0 where the
/// text has none. They are its front; the places behind them are left.
pub(crate) fn file<'a>(text: &[u8], room: &'a mut [u8]) -> (&'a [u8], &'a mut [u8]) {
    let n = size(text).min(room.len());
    let (bytes, left) = room.split_at_mut(n);
    bytes.fill(0);
    let mut words = Words { rest: text };
    (words.bytes(bytes), left)
}

fn size(text: &[u8]) -> usize {
    let mut words = Words { rest: text };
    words.number(10)
}

// The sum of numbers up to 2^40; 0 where one is larger.
fn plus(a: usize, b: usize) -> usize {
    if 0x100_0000_0000 < a.max(b) { 0 } else { a + b }
}

/// How many bytes the four files have.
pub(crate) fn file_bytes(texts: Files<'_>) -> usize {
    plus(
        plus(size(texts.gmm), size(texts.extractor)),
        plus(size(texts.lda), size(texts.cmvn)),
    )
}

fn read_dimensions(files: Files<'_>) -> Result<Dimensions, Refusal> {
    let gmm = check_gmm(&mut KaldiReader::new(files.gmm))?;
    let extractor = check_extractor(&mut KaldiReader::new(files.extractor))?;
    let lda = check_lda(&mut KaldiReader::new(files.lda))?;
    let row = check_cmvn(files.cmvn)?;
    Ok(Dimensions {
        num_gauss: gmm.inv_vars.rows,
        ext_gauss: extractor.num_gauss,
        feat_dim: gmm.inv_vars.cols,
        ivector_dim: extractor.ivector_dim,
        base_dim: row.len.saturating_sub(1),
        lda_cols: lda.cols,
    })
}

/// The dimensions of a model whose four files are in order; 0 each for another.
pub(crate) fn dimensions(files: Files<'_>) -> Dimensions {
    read_dimensions(files).unwrap_or_default()
}
