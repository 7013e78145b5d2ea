// The file of three layers, piece by piece: individuals by layer; connections by layer and individual, to each layer.
ghost use Rattle.std.specs.Prelude.{◌<◌};
ghost use Rattle.output.specs.Output.{Puts};
ghost use Rattle.drawing_layers.specs.Records.{Fits};
ghost use Rattle.drawing_layers.specs.Pieces.{number_in, IsIndividual, individuals_bytes, bytes_to, row_bytes, layer_bytes, file_of};

use crate::entries::{put_individual, put_roles};
use crate::layers::{Individual, Layers};

impl Layers<'_> {
    // The individuals of a layer.
    fn put_individuals(&self, out: &mut [u8], at: usize) -> usize
        requires { Fits (individuals_bytes self.now) at out.old }
        ensures { Puts (individuals_bytes self.now) at out.old out.new result }
    {
        let mut at = at;
        for i in 0..self.members.len() {
            at = put_individual(out, at, self.names(i));
        }
        at
    }

    // The connections from an individual to those of a layer.
    fn put_to(&self, out: &mut [u8], at: usize, from: Individual, layer: usize) -> usize
        requires { IsIndividual self.now from × (layer < 3) × Fits (bytes_to self.now (number_in self.now from) layer) at out.old }
        ensures { Puts (bytes_to self.now (number_in self.now from) layer) at out.old out.new result }
    {
        if layer == from.layer {
            return at;
        }
        let after = layer == 0 && from.layer == 2 || layer == from.layer + 1;
        let x = self.first(from.layer) + from.member;
        let start = self.first(layer);
        let sides = self.sides(from.member);
        let mut at = at;
        for j in 0..self.members.len() {
            let roles = if after {
                self.roles_after(sides, j)
            } else {
                self.roles_before(sides, j)
            };
            if roles != 0 {
                at = put_roles(out, at, self.size.roles, x, start + j, roles);
            }
        }
        at
    }

    // Its connections to all.
    #[tactic(auto, using(crate::proofs::Pieces::row_size))]
    fn put_row(&self, out: &mut [u8], at: usize, from: Individual) -> usize
        requires { IsIndividual self.now from × Fits (row_bytes self.now (number_in self.now from)) at out.old }
        ensures { Puts (row_bytes self.now (number_in self.now from)) at out.old out.new result }
    {
        let at = self.put_to(out, at, from, 0);
        let at = self.put_to(out, at, from, 1);
        self.put_to(out, at, from, 2)
    }

    // The connections from the individuals of a layer.
    fn put_layer(&self, out: &mut [u8], at: usize, layer: usize) -> usize
        requires { (layer < 3) × Fits (layer_bytes self.now layer) at out.old }
        ensures { Puts (layer_bytes self.now layer) at out.old out.new result }
    {
        let mut at = at;
        for member in 0..self.members.len() {
            at = self.put_row(out, at, Individual { layer, member });
        }
        at
    }

    // The whole file.
    #[tactic(auto, using(crate::proofs::Pieces::file_size))]
    pub(crate) fn put_file(&self, out: &mut [u8]) -> usize
        requires { Fits (file_of self.now) 0 out.old }
        ensures { Puts (file_of self.now) 0 out.old out.new result }
    {
        let at = self.put_individuals(out, 0);
        let at = self.put_individuals(out, at);
        let at = self.put_individuals(out, at);
        let at = self.put_layer(out, at, 0);
        let at = self.put_layer(out, at, 1);
        self.put_layer(out, at, 2)
    }
}
