// Layers of cameras around the reference, breadth first. Layer 0 is the reference. Each camera not yet placed that shares `least` views
// with a camera of layer n goes to layer n + 1, and its parent is the camera of layer n that it shares most views with, lowest
// index on ties. Views are bits of 64-bit masks, one mask a camera. Assumes nothing.
#![tactic(auto)]

ghost use Rattle.std.specs.Prelude.{ℕ, ◌+◌, ◌<◌, ◌≤◌, ◌≡◌, All, length};
ghost use Rattle.arrayvec.specs.ArrayVec.{array_vec_len};
ghost use Rattle.limits.specs.Limits.{max_cameras};
ghost use Rattle.chains.specs.Masks.{views_of_both, shared_by};
ghost use Rattle.chains.specs.Layers.{layers};
ghost use Rattle.chains.specs.Inner.Trees.{tree_of};

use arrayvec::ArrayVec;
use limits::MAX_CAMERAS;

// Where a camera is placed: its parent, and its number of links to the reference.
#[derive(Clone, Copy, Debug, PartialEq, Eq)]
pub struct Place {
    pub parent: u8,
    pub links: u8,
}

// The place of each camera. A camera that no chain ties to the reference has none.
#[derive(Clone, Copy)]
pub struct Tree {
    pub places: [Option<Place>; MAX_CAMERAS],
}

// A search under way: the tree so far, and its last layer by number and by its cameras, ascending.
#[derive(Drop)]
struct Search {
    tree: Tree,
    number: u8,
    layer: ArrayVec<u8, MAX_CAMERAS>,
}

// Cameras linked by shared views: a mask for each of them, how many views link two, and the camera that chains lead to.
#[derive(Drop)]
struct Network {
    masks: [u64; MAX_CAMERAS],
    cameras: usize,
    least: u32,
    reference: usize,
    ghost cameras_fit: { cameras ≤ max_cameras },
    ghost some_view: { 1 ≤ least },
    ghost reference_inside: { reference < cameras },
}

// How many views two cameras share.
pub fn shared(a: u64, b: u64) -> u32
    ensures { result ≡ views_of_both a b }
{
    (a & b).count_ones()
}

impl Network {
    ghost use Rattle.chains.specs.Inner.Search.{first_most, Reached};

    // The camera of the layer that shares most views with `camera`, the first of several, if any is linked to it.
    #[tactic(auto, unfolding(crate::specs::Masks::shared_by))]
    fn best_parent(&self, layer: &[u8], camera: usize) -> Option<u8>
        requires camera_inside { camera < max_cameras }
        requires layer_inside { All (λ c. c < max_cameras) layer.now }
        ensures { result ≡ first_most self.now.least (shared_by self.now.masks camera) layer.now }
    {
        let mut parent = None;
        let mut most = self.least - 1;
        for &candidate in layer {
            let views = shared(self.masks[camera], self.masks[usize::from(candidate)]);
            if most < views {
                most = views;
                parent = Some(candidate);
            }
        }
        parent
    }

    // Layer 0: the reference alone, its own parent, with no links.
    fn start(&self) -> Search
        ensures number { result.number ≡ 0 }
        ensures reached { Reached self.now result }
    {
        let reference = self.reference as u8;
        let mut places = [None; MAX_CAMERAS];
        places[self.reference] = Some(Place {
            parent: reference,
            links: 0,
        });
        let mut layer = ArrayVec::new();
        layer.push(reference);
        Search {
            tree: Tree { places },
            number: 0,
            layer,
        }
    }

    // One layer more: each camera that is not placed and is linked to one of the layer is placed under its best parent.
    fn place_next_layer(&self, search: &mut Search)
        requires reached { Reached self.now search.old }
        requires not_last { 0 < array_vec_len search.old.layer }
        ensures number { search.new.number ≡ search.old.number + 1 }
        ensures reached { Reached self.now search.new }
    {
        let number = search.number + 1;
        let places = &mut search.tree.places;
        let mut layer = ArrayVec::new();
        for camera in 0..self.cameras {
            if places[camera].is_none() {
                if let Some(parent) = self.best_parent(&search.layer, camera) {
                    places[camera] = Some(Place {
                        parent,
                        links: number,
                    });
                    layer.push(camera as u8);
                }
            }
        }
        search.number = number;
        search.layer = layer;
    }
}

// The places of all cameras that can be tied to the reference by a chain of cameras, neighbours sharing at least `least` views.
pub fn layer_cameras(
    masks: [u64; MAX_CAMERAS],
    cameras: usize,
    least: u32,
    reference: usize,
) -> Tree
    requires { (cameras ≤ max_cameras) × (1 ≤ least) × (reference < cameras) }
    ensures { result ≡ tree_of (layers cameras (shared_by masks) least reference) }
{
    let network = Network {
        masks,
        cameras,
        least,
        reference,
    };
    let mut search = network.start();
    while !search.layer.is_empty() {
        network.place_next_layer(&mut search);
    }
    search.tree
}
