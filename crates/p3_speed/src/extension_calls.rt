//! The calls from C at extensions. The argument `extension` numbers them as `Extensions` does. A value
//! is the slice of its coefficients, and what is computed is written over it.
ghost use Rattle.p3_speed_loops.specs.declared.extension_loops.ExtensionChain.{ExtensionChain};

use p3_speed_loops::extension_loops::{ExtensionChain, Extensions, NumberedExtensions};

/// Multiplies the value by the factor, `count` times.
#[unsafe(no_mangle)]
pub extern "C" fn p3_speed_extension_products(
    extension: u32,
    value: &mut [u64],
    factor: &[u64],
    count: u64,
)
    ensures { ⟦<Extensions as NumberedExtensions>⟧.chain_writes extension (ExtensionChain.Products factor.entry) count value.old value.new }
{
    Extensions::chain(extension, ExtensionChain::Products { factor }, value, count);
}

/// Squares the value, `count` times.
#[unsafe(no_mangle)]
pub extern "C" fn p3_speed_extension_squares(extension: u32, value: &mut [u64], count: u64)
    ensures { ⟦<Extensions as NumberedExtensions>⟧.chain_writes extension ExtensionChain.Squares count value.old value.new }
{
    Extensions::chain(extension, ExtensionChain::Squares, value, count);
}

/// Inverts the value and adds the step, `count` times; what has no inverse becomes the step.
#[unsafe(no_mangle)]
pub extern "C" fn p3_speed_extension_inverses(
    extension: u32,
    value: &mut [u64],
    step: &[u64],
    count: u64,
)
    ensures { ⟦<Extensions as NumberedExtensions>⟧.chain_writes extension (ExtensionChain.Inverses step.entry) count value.old value.new }
{
    Extensions::chain(extension, ExtensionChain::Inverses { step }, value, count);
}
