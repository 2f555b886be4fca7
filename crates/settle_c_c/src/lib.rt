// The services of settlement for C (include/sayarimu.h), as a static library: each function of settle_c under its own name, with its promise.
#![tactic(auto)]

ghost use Rattle.plan_checks.specs.Handed.{handed};
ghost use Rattle.settle_c.specs.Promised.{ResidualPromised, CurvePromised, DistributionPromised, PeriodisationPromised, ReconciliationPromised, AmountsPromised, InvoicePromised, PlanPromised};

// RESIDUAL: the residual of each hour into `out`.
#[unsafe(no_mangle)]
pub extern "C" fn settle_residual(
    statuses: &[u8],
    nets: &[i64],
    productions: &[u64],
    hourlies: &[u64],
    flexes: &[u64],
    out: &mut [u32],
) -> u64
    ensures { ResidualPromised statuses.now nets.now productions.now hourlies.now flexes.now
        out.old result out.new }
{
    settle_c::settle_residual(statuses, nets, productions, hourlies, flexes, out)
}

// CURVE: the curve number of each hour into `out`.
#[unsafe(no_mangle)]
pub extern "C" fn settle_curve(residuals: &[u32], w: u64, out: &mut [u32]) -> u64
    ensures { CurvePromised residuals.now w out.old result out.new }
{
    settle_c::settle_curve(residuals, w, out)
}

// DISTRIBUTION: the figures of every hour into `out`, hour by hour and within an hour party by party.
#[unsafe(no_mangle)]
pub extern "C" fn settle_distribution(shares: &[u64], residuals: &[u32], out: &mut [i64]) -> u64
    ensures { DistributionPromised shares.now residuals.now out.old result out.new }
{
    settle_c::settle_distribution(shares, residuals, out)
}

// PERIODISATION: a reading's growth in each hour into `out`.
#[unsafe(no_mangle)]
pub extern "C" fn settle_periodisation(e: u64, weights: &[u32], out: &mut [u32]) -> u64
    ensures { PeriodisationPromised e weights.now out.old result out.new }
{
    settle_c::settle_periodisation(e, weights, out)
}

// RECONCILIATION OF ONE HOUR: the loss into `loss_wh`, the differences and the amounts into their lists.
#[unsafe(no_mangle)]
pub extern "C" fn settle_reconciliation(
    residual_wh: u32,
    distributed_wh: &[i64],
    periodised_wh: &[u32],
    carrier: usize,
    price_ore: i64,
    differences_wh: &mut [i64],
    amounts_millionths: &mut [i64],
    loss_wh: &mut i64,
) -> u64
    ensures { ReconciliationPromised residual_wh distributed_wh.now periodised_wh.now carrier price_ore
        differences_wh.old amounts_millionths.old loss_wh.old
        result differences_wh.new amounts_millionths.new loss_wh.new }
{
    settle_c::settle_reconciliation(
        residual_wh,
        distributed_wh,
        periodised_wh,
        carrier,
        price_ore,
        differences_wh,
        amounts_millionths,
        loss_wh,
    )
}

// AMOUNTS: each difference times the price of its hour into `amounts_millionths`.
#[unsafe(no_mangle)]
pub extern "C" fn settle_amounts(
    differences_wh: &[i64],
    parties: usize,
    prices_ore: &[i64],
    amounts_millionths: &mut [i64],
) -> u64
    ensures { AmountsPromised differences_wh.now parties prices_ore.now amounts_millionths.old
        result amounts_millionths.new }
{
    settle_c::settle_amounts(differences_wh, parties, prices_ore, amounts_millionths)
}

// INVOICE: the whole øre of each exact amount into `out_ore`, adding up to 0.
#[unsafe(no_mangle)]
pub extern "C" fn settle_invoice(amounts_millionths: &[i64], out_ore: &mut [i64]) -> u64
    ensures { InvoicePromised amounts_millionths.now out_ore.old result out_ore.new }
{
    settle_c::settle_invoice(amounts_millionths, out_ore)
}

// PLANNER: of the record of each month a, b, the weight before it and the weight of the whole reading; its party and E are those handed in.
#[unsafe(no_mangle)]
pub extern "C" fn settle_plan(
    e_wh: u64,
    a: u16,
    b: u16,
    parties: &[u8],
    hours: &[u16],
    curves: &[u32],
    out_a: &mut [u16],
    out_b: &mut [u16],
    out_before: &mut [u64],
    out_whole: &mut [u64],
) -> u64
    ensures { PlanPromised (handed e_wh a b parties.now hours.now curves.now)
        out_a.old out_b.old out_before.old out_whole.old
        result out_a.new out_b.new out_before.new out_whole.new }
{
    settle_c::settle_plan(
        e_wh, a, b, parties, hours, curves, out_a, out_b, out_before, out_whole,
    )
}
