// One line per task.
ghost use Rattle.std.specs.Prelude.{◌<◌, ◌≡◌, length};
ghost use Rattle.instance.specs.Held.{Sound, problem_in};
ghost use Rattle.instance.specs.Node.{task_count};
ghost use Rattle.laws.specs.Lists.{joined};
ghost use Rattle.listing_lines.specs.LinesPut.{HasRoom, Puts};
ghost use Rattle.listing_lines.specs.ListingLines.{task_line};

use crate::bytes::Lines;
use instance::Instance;
use plan_rules::ticks_of;

impl<'a> Lines<'a> {
    // The line of task i, counted from 0.
    fn task(&mut self, inst: Instance, plan: &[u32], i: usize)
        requires sound { Sound inst }
        requires i_bound { i < task_count (problem_in inst) }
        requires i_in_bounds { i < length plan.now }
        requires room { HasRoom self.old (task_line (problem_in inst) plan.now i) }
        ensures { Puts self.old (task_line (problem_in inst) plan.now i) self.new }
    {
        let number = i as u64 + 1;
        let choice = plan[i];
        if choice == 0 {
            self.refused(number);
            return;
        }
        let placed = (choice - 1) as usize;
        let core = placed / inst.levelcount;
        let level = placed % inst.levelcount;
        let ticks = ticks_of(inst.start, inst.tasks[i].cycles, inst.levels[level].speed);
        self.kept(number, core as u64 + 1, level as u64 + 1, ticks as u64);
    }

    pub(crate) fn tasks(&mut self, inst: Instance, plan: &[u32])
        requires sound { Sound inst }
        requires plan_len { length plan.now ≡ task_count (problem_in inst) }
        requires room { HasRoom self.old (joined (task_line (problem_in inst) plan.now) (task_count (problem_in inst))) }
        ensures { Puts self.old (joined (task_line (problem_in inst) plan.now) (task_count (problem_in inst))) self.new }
    {
        for i in 0..inst.taskcount {
            self.task(inst, plan, i);
        }
    }
}
