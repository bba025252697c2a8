//! A small model for a base dimension, that of example P9: its options, and its files as bytes. The
//! base dimension changes the LDA's file and the CMVN text.

ghost use Rattle.std.specs.Prelude.{◌≡◌, ◌≤◌, length};
ghost use Rattle.loops.specs.Lists.{over};
ghost use Rattle.lists.specs.Files.{options as options_of_it, gmm_file, extractor_file, lda_file, cmvn_file};

use definition::IvectorOptions;
use writer::byte_writer::Writer;

/// The options of example P9, with a window of 20.
pub fn options() -> IvectorOptions
    ensures { result ≡ options_of_it }
{
    IvectorOptions {
        left_context: 0,
        right_context: 0,
        cmn_window: 20,
        global_frames: 200,
        num_gselect: 5,
        num_cg_iters: 15,
        min_post: 0.025,
        posterior_scale: 0.25,
        max_count: 100.0,
        min_energy: 50.0,
    }
}

/// The GMM's file: one Gaussian over one feature.
#[tactic(auto, unfolding(crate::specs::Files::gmm_file))]
pub fn gmm() -> &'static [u8]
    ensures { result.now ≡ gmm_file }
{
    b"\x00B<DiagGMM> <WEIGHTS> FV \x04\x01\x00\x00\x00\x00\x00\x80?<MEANS_INVVARS> FM \x04\x01\x00\x00\x00\x04\x01\x00\x00\x00\x00\x00\x80?<INV_VARS> FM \x04\x01\x00\x00\x00\x04\x01\x00\x00\x00\x00\x00\x80?</DiagGMM> "
}

/// The extractor's file: one Gaussian, one feature, one i-vector dimension.
#[tactic(auto, unfolding(crate::specs::Files::extractor_file))]
pub fn extractor() -> &'static [u8]
    ensures { result.now ≡ extractor_file }
{
    b"\x00B<IvectorExtractor> <w> DM \x04\x00\x00\x00\x00\x04\x00\x00\x00\x00<w_vec> DV \x04\x00\x00\x00\x00<M> \x04\x01\x00\x00\x00DM \x04\x01\x00\x00\x00\x04\x01\x00\x00\x00\x00\x00\x00\x00\x00\x00\x00@<SigmaInv> DP \x04\x01\x00\x00\x00\x00\x00\x00\x00\x00\x00\xf0?<IvectorOffset> \x08\x00\x00\x00\x00\x00\x00\xf0?</IvectorExtractor> "
}

/// Writes the LDA's file, and returns its length in bytes.
pub fn put_lda(dim: usize, out: &mut [u8; 271]) -> usize
    requires { dim ≤ 64 }
    ensures length { result ≡ length (lda_file dim) }
    ensures bytes { out.new ≡ over (lda_file dim) out.old }
{
    let mut file = Writer { out, at: 0 };
    file.bytes(&[0, 66, 70, 77, 32, 4, 1, 0, 0, 0, 4, dim as u8, 0, 0, 0]);
    file.repeated(dim, b"\0\0\x80\x3f");
    file.at
}

/// Writes the CMVN text, and returns its length in bytes.
pub fn put_cmvn(dim: usize, out: &mut [u8; 395]) -> usize
    requires { dim ≤ 64 }
    ensures length { result ≡ length (cmvn_file dim) }
    ensures bytes { out.new ≡ over (cmvn_file dim) out.old }
{
    let mut file = Writer { out, at: 0 };
    file.bytes(b"[ ");
    file.repeated(dim, b"50 ");
    file.bytes(b"100\n");
    file.repeated(dim, b"50 ");
    file.bytes(b"100 ]");
    file.at
}
