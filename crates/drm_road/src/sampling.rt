//! Nodes that are drawn by a generator of random numbers.
ghost use Rattle.std.specs.Prelude.{◌≡◌, ◌≤◌, IsTrue, length, All, IfOk};
ghost use Rattle.rand_core.specs.Steps.{first_words};
ghost use Rattle.rand_pcg.specs.Pcg.{pcg64};
ghost use Rattle.drm_arm.specs.Arm.{IsLink};
ghost use Rattle.drm_arm.specs.Config.{IsConfig, allows};
ghost use Rattle.drm_road.specs.Limits.{max_draws};
ghost use Rattle.drm_road.specs.Words.{after_words};
ghost use Rattle.drm_road.specs.Draws.{generator_of, coordinate_of, configured, draws_of, unrepeated};
ghost use Rattle.drm_road.specs.Laws.{DrawnNodesAreConfigurations};
ghost use Rattle.drm_road.specs.Pairs.{AreLikeNodes};

use crate::met::is_new;
use drm_arm::{Arm, Config, Link};
use drm_outside::{List, Memory};
use rand_core::SeedableRng;
use rand_core::utils::NextWord;
use rand_pcg::Pcg64;
use std::alloc::Global;
use std::collections::HashSet;

/// The greatest number of draws; the least is 1.
pub const MAX_DRAWS: u32 = 2_048;

/// The configurations of the arm that `draws` draws give, each once, in the order in which it was drawn first.
///
/// The generator is the PCG64 that the seed gives. Each draw takes one word of it for each joint in order, and a
/// word gives the coordinate `lo + word mod (hi - lo + 1)`. A draw that equals an earlier one is dropped.
pub fn sample(alloc: Global, arm: &Arm, seed: u64, draws: u32) -> Result<List<Config>, Memory>
    requires some { 1 ≤ draws }
    requires few { draws ≤ max_draws }
    ensures drawn { IfOk result (λ nodes. nodes ≡ unrepeated (draws_of arm.now (generator_of seed) draws)) }
    ensures count { IfOk result (λ nodes. (1 ≤ length nodes) × (length nodes ≤ draws)) }
    ensures configurations { IfOk result (λ nodes. All (IsConfig arm.now) nodes) }
    ensures alike { IfOk result AreLikeNodes }
{
    let mut generator = Pcg64::seed_from_u64(seed);
    let mut met = HashSet::new(alloc);
    let mut nodes = Vec::new(alloc);
    for _k in 0..draws {
        let config = draw(arm, &mut generator);
        if is_new(&mut met, &config)? {
            nodes.push(config)?;
        }
    }
    Ok(List::from_vec(nodes))
}

/// The law that the nodes which an arm draws are configurations of it.
pub fn drawn_nodes_are_configurations()
    ensures { DrawnNodesAreConfigurations }
{}

fn draw(arm: &Arm, generator: &mut Pcg64) -> Config
    ensures config { result ≡ configured arm.now (first_words pcg64 (length arm.now) generator.old) }
    ensures rest { generator.new ≡ after_words pcg64 (length arm.now) generator.old }
    ensures valid { IsConfig arm.now result }
{
    let mut values = [0; 6];
    let joints = arm.links();
    for j in 0..joints {
        let link = arm.link(j);
        let word = generator.next_word();
        values[j as usize] = coordinate(&link, word);
    }
    match arm.config(&values[..joints as usize]) {
        Ok(config) => config,
        Err(_) => unreachable!(),
    }
}

fn coordinate(link: &Link, word: u64) -> i32
    requires { IsLink link.now }
    ensures value { result ≡ coordinate_of link.now word }
    ensures within { IsTrue (allows link.now result) }
{
    let span = link.hi.abs_diff(link.lo) as u64 + 1;
    link.lo + (word % span) as i32
}
