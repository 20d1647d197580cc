// The ticks of a job of each item in the linear relaxation of a part, where an item may have some of each level.
use crate::level_mixes::Variable;
use crate::parts::Part;
use simplex::Dictionary;
use values::MOST_ITEMS;

impl Part {
    // The ticks of a job of each item that has its level.
    pub(crate) fn means(&self) -> [f64; MOST_ITEMS] {
        self.ticks.map(|ticks| ticks as f64)
    }
}

// Adds the ticks of a job that a variable stands for, so much of it as there is.
fn add_mean(variable: Variable, amount: f64, means: &mut [f64; MOST_ITEMS]) {
    if let Variable::Share { item, ticks } = variable {
        if let Some(mean) = means.get_mut(item) {
            *mean += amount * ticks as f64;
        }
    }
}

// Adds the ticks of a job of each other item in the mean of its levels, as the basic variables have them.
pub(crate) fn add_means(shares: &Dictionary<Variable>, means: &mut [f64; MOST_ITEMS]) {
    for row in 1..shares.rows {
        add_mean(shares.basic[row], shares.entries[row][0], means);
    }
}
