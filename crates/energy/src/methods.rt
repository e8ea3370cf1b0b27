// How a seam is found, as every operation that finds one is told.
ghost use Rattle.std.specs.Prelude.{◌≡◌};
ghost use Rattle.energy.specs.Energy.{one_cost};
ghost use Rattle.energy.specs.Methods.{usual_method};

// What a pixel costs. By Edge and Flat its differences to the right and the lower neighbour; at the last column and the last row Edge
// takes those to the left and the upper one, Flat none. By Forward the differences of the pixels that meet once it is taken out, which
// depend on where a path comes from.
#[derive(Clone, Copy, Debug, PartialEq, Eq)]
pub enum EnergyRule {
    Edge,
    Flat,
    Forward,
}

impl EnergyRule {
    // Whether a pixel costs the same wherever a path comes from.
    pub fn has_one_cost(self) -> bool
        ensures { result ≡ one_cost self }
    {
        match self {
            EnergyRule::Edge | EnergyRule::Flat => true,
            EnergyRule::Forward => false,
        }
    }
}

// All that finding a seam depends on besides the picture. Operations take it after the size, and a file's head has it.
#[derive(Clone, Copy, Debug, PartialEq, Eq)]
pub struct Method {
    pub energy: EnergyRule,
}

// The method that is meant where none is said.
pub fn usual_method() -> Method
    ensures { result ≡ usual_method }
{
    Method {
        energy: EnergyRule::Edge,
    }
}
