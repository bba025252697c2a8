//! Gaussians with diagonal covariances: the log-likelihoods of a row of features, and how a frame's
//! weight makes a prune floor and a scale.

mod gmm;

ghost use Rattle.std.specs.Prelude.{◌≡◌, true, false};
ghost use Rattle.definition.specs.Posteriors.{min_post_for, weighed as weighed_of, unweighted as unweighted_of};

use definition::{FrameWeight, IvectorOptions};
pub use gmm::{DiagGmm, LikeRooms};

/// The prune floor at a weight: `min_post` divided by the weight's magnitude, at most 0.99; for
/// weight 0 it is 0.99.
pub fn min_post_for(o: IvectorOptions, weight: f32) -> f32
    ensures { result ≡ min_post_for o weight }
{
    if weight == 0.0 {
        return 0.99;
    }
    floats::min(o.min_post / floats::abs(weight), 0.99)
}

/// How a frame of this weight enters the statistics. A frame of weight 0 is skipped.
pub fn weighed(o: IvectorOptions, weight: f32) -> FrameWeight
    ensures { result ≡ weighed_of o weight }
{
    if weight == 0.0 {
        return FrameWeight::Skipped;
    }
    FrameWeight::Weighed(min_post_for(o, weight), o.posterior_scale * weight)
}

/// How a frame enters the statistics before any weight change.
pub fn unweighted(o: IvectorOptions) -> FrameWeight
    ensures { result ≡ unweighted_of o }
{
    FrameWeight::Weighed(o.min_post, o.posterior_scale)
}
