// `calc_final_temps`: the layers are heated by what they are offered and mixed; then they lose heat and are limited.
ghost use Rattle.std.specs.Prelude.{◌<◌};
ghost use Rattle.heating.specs.Heat.{offers_to};
ghost use Rattle.heating.specs.FinalTemps.{calc_final_temps, Calculated};

use crate::heat::LayerOffer;
use cylinder::LayeredCylinder;
use refusals::Refusal;
use set_points::SetPoints;
use thermal_losses::{ChargedLayers, HeaterLosses, LossesAnswer};

// What the heat came to: the mixing's rounds, and the figures of losses and limit.
#[derive(Clone, Copy)]
pub struct HeatFigures {
    pub rounds: usize,
    pub figures: LossesAnswer,
}

// The heater stands in the layer that is offered heat. `layers` holds the layers before, with what earlier heaters charged each this step, and at the end
// those that the heat leaves, this heater's losses charged too. A refused mixing leaves them as they were.
pub fn calc_final_temps(
    tank: &LayeredCylinder,
    p: SetPoints,
    offer: LayerOffer,
    layers: &mut ChargedLayers,
) -> Result<HeatFigures, Refusal>
    requires { offer.layer < tank.now.numbers.layers }
    ensures { Calculated (calc_final_temps tank.now.numbers tank.now.vol p offer.layer (offers_to offer.layer offer.energy)
        layers.old.temps layers.old.charged)
        result layers.new.temps layers.new.charged }
{
    let n = tank.numbers.layers;
    let before = layers.temps;
    crate::heat::calc_temps_with_energy_input(tank, offer, &mut layers.temps);
    match rearrange::rearrange_temperatures(n, &tank.vol, &mut layers.temps) {
        Ok(rounds) => {
            let input = offer.energy_input(n);
            let heater = HeaterLosses {
                tank,
                points: p,
                layer: offer.layer,
                before: &before,
            };
            let figures = heater.calc_temps_after_thermal_losses(input, layers);
            Ok(HeatFigures { rounds, figures })
        }
        Err(refusal) => {
            layers.temps = before;
            Err(refusal)
        }
    }
}
