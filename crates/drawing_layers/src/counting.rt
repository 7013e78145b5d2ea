// How long the file of three layers is.
ghost use Rattle.std.specs.Prelude.{◌≡◌, ◌<◌, length};
ghost use Rattle.drawing_layers.specs.Pieces.{count_of, reach, layer_connections, file_of};

use crate::entries::role_count;
use crate::layers::Layers;

impl Layers<'_> {
    // How many connections begin at an individual of member i.
    #[tactic(auto, unfolding(crate::specs::Pieces::summed))]
    fn reach(&self, i: usize) -> usize
        requires { i < count_of self.now }
        ensures { result ≡ reach self.now i }
    {
        let sides = self.sides(i);
        let mut count = 0;
        for j in 0..self.members.len() {
            count += role_count(self.roles_after(sides, j))
                + role_count(self.roles_before(sides, j));
        }
        count
    }

    // How many connections begin at the individuals of a layer.
    #[tactic(auto, using(crate::proofs::Lengths::reach_few, crate::proofs::Lengths::some_reach_few), unfolding(crate::specs::Pieces::summed))]
    fn layer_connections(&self) -> usize
        ensures { result ≡ layer_connections self.now }
    {
        let mut count = 0;
        for i in 0..self.members.len() {
            count += self.reach(i);
        }
        count
    }

    // How many bytes the file has: three layers of records of 3 bytes and of 6.
    #[tactic(auto, using(crate::proofs::Lengths::layer_few, crate::proofs::Lengths::file_length))]
    pub(crate) fn file_length(&self) -> usize
        ensures { result ≡ length (file_of self.now) }
    {
        let individuals = self.members.len();
        let connections = self.layer_connections();
        (individuals << 3) + individuals + (connections << 4) + (connections << 1)
    }
}
